// What is written is read.
ghost use Rattle.std.specs.Prelude.{◌≡◌, Some};
ghost use Rattle.call_names.specs.declared.name.CallName.{CallName};
ghost use Rattle.call_names.specs.Readings.{call_reading};
ghost use Rattle.call_names.specs.Texts.{call_text, IsCallName};

use actor_names::member_law;

/// The text of a name is read as that name.
pub fn call_name_law()
    ensures { (call : CallName) → IsCallName call → call_reading (call_text call) ≡ Some call }
{
    member_law();
}
