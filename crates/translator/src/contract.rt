// The trait of translators.
ghost use Rattle.std.specs.Prelude.{◌≡◌, ℕ, ◌+◌, ◌%◌, ◌^◌, Bool, true, List, map, length};
ghost use Rattle.product.specs.declared.row.Row.{Row as Seen};
ghost use Rattle.product.specs.Parts.{rows, parts, Outcome};
ghost use Rattle.translator.specs.Owed.{shown, Alike, Agree, Kept, Held};

use names::Fault;
use product::{Interface, Product};

pub trait Translator {
    // the product or the fault of a source with the rows of its imports
    ghost means: { List ℕ → List (List Seen) → Outcome };
    // whether two interfaces are the same to this translator
    ghost same: { List Seen → List Seen → Bool };
    // how many translations were asked, modulo 2^64
    ghost asked: { Self → ℕ };

    // Fills the product with the translation of the source, or answers its fault, and counts.
    fn translate(
        &mut self,
        source: &[u8],
        imports: &[Interface],
        out: &mut Product,
    ) -> Result<(), Fault>
        ensures means { shown result (parts out.new) ≡ means source.now (map rows imports.now) }
        ensures counts { asked self.new ≡ (asked self.old + 1) % 2 ^ 64 };

    // Whether two interfaces are the same.
    fn compare(&self, a: &Interface, b: &Interface) -> bool
        ensures { result ≡ same (rows a.now) (rows b.now) };

    // How many translations were asked, modulo 2^64.
    fn count(&self) -> u64
        ensures { result ≡ asked self.now };

    ghost itself: { (a : List Seen) → same a a ≡ true };

    ghost turned: { (a b : List Seen) → same a b ≡ true → same b a ≡ true };

    ghost chained: { (a b c : List Seen) → same a b ≡ true → same b c ≡ true → same a c ≡ true };

    ghost agrees: { (source : List ℕ) (a b : List (List Seen)) → Alike same a b → Agree same (means source a) (means source b) };

    ghost bounded: { (source : List ℕ) (imports : List (List Seen)) → Held source imports → Kept (length imports) (means source imports) };
}
