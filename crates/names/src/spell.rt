// Names from bytes, in the written and in the padded form.
ghost use Rattle.std.specs.Prelude.{◌≡◌, true, false, MatchResult};
ghost use Rattle.names.specs.Refusals.{number};
ghost use Rattle.names.specs.Spelling.{letter, continues, blank, tail, padded_name, plain, written_name, padded};

use crate::name::Name;
use crate::refusal::Refusal;

fn is_letter(b: u8) -> bool
    ensures { result ≡ letter b }
{
    b.is_ascii_lowercase()
}

fn may_follow(b: u8) -> bool
    ensures { result ≡ continues b }
{
    is_letter(b) || b.is_ascii_digit()
}

// Letters or digits, then zero bytes.
fn is_tail(bytes: &[u8]) -> bool
    ensures { result ≡ tail bytes.now }
{
    bytes
        .iter()
        .skip_while(|b| may_follow(**b))
        .all(|b| *b == 0)
}

// Letters or digits only.
fn is_plain(bytes: &[u8]) -> bool
    ensures { result ≡ plain bytes.now }
{
    bytes.iter().all(|b| may_follow(*b))
}

fn is_padded(bytes: &[u8]) -> bool
    ensures { result ≡ padded_name bytes.now }
{
    match bytes {
        [first, rest @ ..] => rest.len() == 7 && is_letter(*first) && is_tail(rest),
        [] => false,
    }
}

fn is_written(text: &[u8]) -> bool
    ensures { result ≡ written_name text.now }
{
    match text {
        [first, rest @ ..] => rest.len() <= 7 && is_letter(*first) && is_plain(rest),
        [] => false,
    }
}

// Two forms of a name are bytes: the names of these functions tell which is meant, as no `TryFrom` could.
impl Name {
    // The name of eight bytes in the padded form.
    pub fn from_padded(bytes: [u8; 8]) -> Result<Name, Refusal>
        ensures { MatchResult result (λ n. n.bytes ≡ bytes) (λ e. (number e ≡ 11) × (padded_name bytes ≡ false)) }
    {
        if is_padded(&bytes) {
            Ok(Name { bytes })
        } else {
            Err(Refusal::NotAName)
        }
    }

    // The name that a text writes.
    pub fn from_text(text: &[u8]) -> Result<Name, Refusal>
        ensures { MatchResult result (λ n. (n.bytes ≡ padded text.now) × (written_name text.now ≡ true)) (λ e. (number e ≡ 11) × (written_name text.now ≡ false)) }
    {
        if is_written(text) {
            Ok(pad(text))
        } else {
            Err(Refusal::NotAName)
        }
    }
}

// The name that a text writes, with zero bytes behind.
fn pad(text: &[u8]) -> Name
    requires { written_name text.now ≡ true }
    ensures { result.bytes ≡ padded text.now }
{
    let mut bytes = [0u8; 8];
    bytes[0..text.len()].copy_from_slice(text);
    Name { bytes }
}
