// Messages and their fields.
ghost use Rattle.std.specs.Prelude.{◌≡◌};

use crate::body::Body;
use lists_and_limits::Bytes;
use std::marker::Model;

/// A field of a head: its name as it was written, and its value without the white space around it.
#[derive(Drop)]
pub struct HttpField {
    pub name: Bytes,
    pub value: Bytes,
}

/// The fields of a head in their order; contracts see them as a list.
#[derive(Drop)]
pub struct HttpFields {
    fields: Vec<HttpField>,
}

impl Model for HttpFields {
    ghost use Rattle.std.specs.Prelude.{List};
    ghost use Rattle.http_edge.specs.declared.message.HttpField.{HttpField};

    ghost Value = { List HttpField };

    ghost view = { λ a. a.fields.items };
}

impl HttpFields {
    /// The fields of a vector.
    pub fn from_vec(fields: Vec<HttpField>) -> HttpFields
        ensures { result ≡ fields.items }
    {
        HttpFields { fields }
    }

    /// The fields.
    pub fn as_slice(&self) -> &[HttpField]
        ensures { result.now ≡ self.now }
    {
        self.fields.as_slice()
    }

    /// The vector. It takes no memory.
    pub fn into_vec(self) -> Vec<HttpField>
        ensures { result.items ≡ self }
    {
        let HttpFields { fields } = self;
        fields
    }
}

/// A request. `close` says that no further request follows on its connection.
#[derive(Drop)]
pub struct HttpRequest {
    pub method: Bytes,
    pub target: Bytes,
    pub fields: HttpFields,
    pub body: Body,
    pub close: bool,
}

/// A response that is written, or a reply that is read.
#[derive(Drop)]
pub struct HttpResponse {
    pub status: u16,
    pub fields: HttpFields,
    pub body: Body,
}
