// What every translator takes.
ghost use Rattle.std.specs.Prelude.{◌≡◌, if◌then◌else◌, Ok, Err};
ghost use Rattle.translator.specs.Owed.{admitted, too_much};

use names::Fault;
use product::Interface;

// Whether the source has at most 512 bytes and there are at most four imports.
pub fn admits(source: &[u8], imports: &[Interface]) -> bool
    ensures { result ≡ admitted source.now imports.now }
{
    source.len() <= 512 && imports.len() <= 4
}

// Nothing, or fault 9 of the whole source where it may not be translated.
pub fn admit(source: &[u8], imports: &[Interface]) -> Result<(), Fault>
    ensures { result ≡ (if admitted source.now imports.now then Ok (tt {0}) else Err too_much) }
{
    if admits(source, imports) {
        return Ok(());
    }
    // a number, since this fault is told for every language
    Err(Fault { code: 9, line: 0 })
}
