// The law of the texts of code.
ghost use Rattle.std.specs.Prelude.{◌≡◌, ℕ, Some};
ghost use Rattle.machine_defs.specs.declared.ins.Ins.{Ins};
ghost use Rattle.machine_defs.specs.Decode.{decode as decoded};
ghost use Rattle.report_laws.specs.DecodedTexts.{IsReadBack};

use rv_decode::decode;
use rv_text::text_laws;

/// States of a word of code that the instruction which it decodes to, where there is one, fits its format and is read back from
/// its text. It does nothing.
pub fn decoded_texts(word: u32)
    ensures { (i : Ins) (size : ℕ) → decoded word ≡ Some (i, size) → IsReadBack i }
{
    text_laws();
    let _ = decode(word);
}
