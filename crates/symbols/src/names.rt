//! Names, and which symbol they name.
ghost use Rattle.std.specs.Prelude.{◌≡◌, ◌<◌, length, IfSome};
ghost use Rattle.symbols.specs.Names.{name_bytes, alike, index_of};

use grammar::{Item, Name};

// The part of a text that a name is, as far as the text goes.
fn name_bytes(text: &[u8], name: Name) -> &[u8]
    ensures { result.now ≡ name_bytes text.now name }
{
    let rest = &text[name.place.min(text.len())..];
    &rest[..name.len.min(rest.len())]
}

// Whether an item has a name of these bytes: in which case a letter is written makes no difference.
fn has_name(text: &[u8], item: Item, bytes: &[u8]) -> bool
    ensures { result ≡ alike (name_bytes text.now item.name) bytes.now }
{
    name_bytes(text, item.name).eq_ignore_ascii_case(bytes)
}

// The first item of that name, counted from 0.
pub(crate) fn index_of(text: &[u8], name: Name, items: &[Item]) -> Option<usize>
    ensures value { result ≡ index_of text.now name items.now }
    ensures within { IfSome result (λ k. k < length items.now) }
{
    let bytes = name_bytes(text, name);
    for (i, item) in items.iter().enumerate() {
        if has_name(text, *item, bytes) {
            return Some(i);
        }
    }
    None
}
