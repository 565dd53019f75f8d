// What the forms of names mean: which bytes stand in their texts, said without a reader.
ghost use Rattle.std.specs.Prelude.{◌≡◌, ◌^◌, ℕ, List, Some, None, Ok, option_and_then};
ghost use Rattle.lists_and_limits.specs.Decimals.{number_of};
ghost use Rattle.actor_names.specs.declared.address.Address.{Address};
ghost use Rattle.actor_names.specs.Addresses.{address_reading};
ghost use Rattle.actor_names.specs.Names.{before_slash, after_slash, space_in, local_in};
ghost use Rattle.actor_names.specs.Numerals.{member_fault};
ghost use Rattle.actor_names.specs.Forms.{AddressText, MemberText};

/// A text is read as an address exactly if it is the address as it is printed: four numbers up to 255 joined by `.`,
/// then `:` and a port up to 65535, all in decimal.
pub fn address_law()
    ensures form { (x : Address) (text : List ℕ) → AddressText x text → address_reading text ≡ Ok x }
    ensures only { (x : Address) (text : List ℕ) → address_reading text ≡ Ok x → AddressText x text }
{}

/// A text is a member's exactly if it is a node, `/` and a boot from 1 to 2^62 in decimal, with a space and `:` before
/// it or, in the space `default`, nothing. The pieces that `read_member` takes of the text are that space, node and boot.
pub fn member_law()
    ensures form { (space node : List ℕ) (boot : ℕ) (text : List ℕ) → MemberText space node boot text → (member_fault text ≡ None) × (space_in text ≡ space) × (before_slash (local_in text) ≡ node) × (option_and_then (number_of (2 ^ 62)) (after_slash (local_in text)) ≡ Some boot) }
    ensures only { (text : List ℕ) → member_fault text ≡ None → (boot : ℕ) × MemberText (space_in text) (before_slash (local_in text)) boot text × (option_and_then (number_of (2 ^ 62)) (after_slash (local_in text)) ≡ Some boot) }
{}
