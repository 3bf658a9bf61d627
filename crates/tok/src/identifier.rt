// A word: the rest of it, and then what it spells.
ghost use Rattle.std.specs.Prelude.{◌≡◌};
ghost use Rattle.scan.specs.Until.{left};
ghost use Rattle.reading.specs.Words.{identifierish};

use reading::Call;
use record::Reading;
use scan::Found;

// The rest of a word that starts at o.
pub fn identifierish(s: &[u8], rd: Reading, o: usize, at: usize) -> Call
    ensures { result ≡ identifierish rd (left s.now o) o (left s.now at) at }
{
    match scan::word(s, at) {
        Ok((place, passed)) => crate::more(passed, words::word_token(s, rd, o, place)),
        Err((place, passed)) => crate::more(passed, words::word_token(s, rd, o, place)),
    }
}
