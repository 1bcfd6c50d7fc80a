// The keys as they stand in a text.
ghost use Rattle.std.specs.Prelude.{◌≡◌, ◌≤◌, length, IfSome};
ghost use Rattle.slips.specs.Keys.{key_words};

use crate::Key;

const KEYS: [Key; 12] = [
    Key::Job,
    Key::Kind,
    Key::Unknowns,
    Key::Pin,
    Key::Lo,
    Key::Hi,
    Key::Inv,
    Key::Steps,
    Key::Eq,
    Key::Row,
    Key::Visit,
    Key::Verdict,
];

// The bytes of a key.
pub fn key_bytes(key: Key) -> &'static [u8]
    ensures { result.now ≡ key_words key }
{
    match key {
        Key::Job => b"job=",
        Key::Kind => b"kind=",
        Key::Unknowns => b"n=",
        Key::Pin => b"pin=",
        Key::Lo => b"lo=",
        Key::Hi => b"hi=",
        Key::Inv => b"inv=",
        Key::Steps => b"steps=",
        Key::Eq => b"eq=",
        Key::Row => b"row=",
        Key::Visit => b"visit=",
        Key::Verdict => b"verdict=",
    }
}

// The place after the key, where it stands there.
pub fn past_key(text: &[u8], at: usize, key: Key) -> Option<usize>
    requires { at ≤ length text.now }
    ensures { IfSome result (λ from. (at ≤ from) × (from ≤ length text.now)) }
{
    let rest = text[at..].strip_prefix(key_bytes(key))?;
    Some(text.len() - rest.len())
}

// The key that stands there.
pub(crate) fn key_there(text: &[u8], at: usize) -> Option<Key>
    requires { at ≤ length text.now }
{
    KEYS.into_iter()
        .find(|key| past_key(text, at, *key).is_some())
}
