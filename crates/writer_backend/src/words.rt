// The separators and brackets of a record.
ghost use Rattle.std.specs.Prelude.{◌≡◌, true, false, ◌≤◌, length};
ghost use Rattle.calls.specs.Call.{bracket, plain_close, empty_close, separator};

use calls::Kind;

// The closing bracket alone, as alternate form has it.
pub fn bracket(k: Kind) -> &'static [u8]
    ensures { result.now ≡ bracket k }
{
    match k {
        Kind::Struct | Kind::Set => b"}",
        Kind::Tuple => b")",
        Kind::List => b"]",
    }
}

// The closing of a builder with a field, in plain form.
pub fn plain_close(k: Kind) -> &'static [u8]
    ensures { result.now ≡ plain_close k }
{
    match k {
        Kind::Struct => b" }",
        Kind::Tuple => b")",
        Kind::List => b"]",
        Kind::Set => b"}",
    }
}

// The closing of a builder without a field.
pub fn empty_close(k: Kind) -> &'static [u8]
    ensures { result.now ≡ empty_close k }
{
    match k {
        Kind::Struct | Kind::Tuple => b"",
        Kind::List => b"[]",
        Kind::Set => b"{}",
    }
}

// What stands before a field or an entry.
pub fn separator(k: Kind, has_field: bool, is_alternate: bool) -> &'static [u8]
    ensures { (result.now ≡ separator k has_field is_alternate) × (length result.now ≤ 3) }
{
    match (has_field, is_alternate, k) {
        (true, false, _) => b", ",
        (true, true, _) => b",\n",
        (false, false, Kind::Struct) => b" { ",
        (false, false, Kind::Tuple) => b"(",
        (false, false, Kind::List) => b"[",
        (false, false, Kind::Set) => b"{",
        (false, true, Kind::Struct) => b" {\n",
        (false, true, Kind::Tuple) => b"(\n",
        (false, true, Kind::List) => b"[\n",
        (false, true, Kind::Set) => b"{\n",
    }
}
