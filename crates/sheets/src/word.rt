// Words and letters of the plan sheet.
ghost use Rattle.std.specs.Prelude.{◌≡◌, ℕ, ◌+◌, ◌≤◌, List, [], ◌∷◌, is_some, length, not, Option, Some};
ghost use Rattle.sheets.specs.declared.fault.Wrong.TheVariants as wrongs;
ghost use Rattle.sheets.specs.Checks.{tell_if, field_finding};
ghost use Rattle.sheets.specs.Lines.{part};
ghost use Rattle.sheets.specs.Promises.{Reads};
ghost use Rattle.sheets.specs.Script.{fields_behind, script_word};
ghost use Rattle.sheets.specs.Words.{head_word, letter_code};

use crate::command::Word;
use crate::fault::{Finding, Wrong};
use crate::line::Line;
use crate::parsed::Head;

// What a word of four bytes stands for.
pub(crate) trait Spelled: Copy {
    ghost spelled: { List ℕ → Option Self };

    fn spelled_by(word: &[u8]) -> Option<Self>
        requires { length word.now ≡ 4 }
        ensures { result ≡ spelled word.now };
}

impl Spelled for Head {
    ghost spelled = { head_word };

    fn spelled_by(word: &[u8]) -> Option<Head> {
        match word {
            b"PLAN" => Some(Head::Plan),
            b"SIDE" => Some(Head::Side),
            _ => None,
        }
    }
}

impl Spelled for Word {
    ghost spelled = { script_word };

    fn spelled_by(word: &[u8]) -> Option<Word> {
        match word {
            b"TURN" => Some(Word::Turn),
            b"SWAP" => Some(Word::Swap),
            b"FLIP" => Some(Word::Flip),
            b"MOVE" => Some(Word::Move),
            b"KEEP" => Some(Word::Keep),
            b"UNDO" => Some(Word::Undo),
            b"PACK" => Some(Word::Pack),
            _ => None,
        }
    }
}

// What the first word of a line of the plan sheet stands for.
pub(crate) fn read_word<W: Spelled>(line: Line<'_>) -> Result<W, Finding>
    requires { line.at.offset + 4 ≤ length line.bytes.now }
    ensures { Reads line.entry.sheet line.entry.bytes.now (tell_if (not (is_some (W.spelled (part line.entry.bytes.now line.entry.at.offset 4)))) (field_finding wrongs.UnknownWord line.entry.sheet line.entry.at.line line.entry.at.offset 0 4) ∷ []) (λ w. W.spelled (part line.entry.bytes.now line.entry.at.offset 4) ≡ Some w) result }
{
    let field = line.field(0, 4);
    W::spelled_by(field.bytes()).ok_or(field.fault(Wrong::UnknownWord))
}

// The relation code that a letter stands for: the byte that a load takes.
pub(crate) fn code_of(letter: u8) -> Option<u8>
    ensures { result ≡ letter_code letter }
{
    match char::from(letter) {
        '.' => Some(0),
        'h' => Some(1),
        'v' => Some(2),
        _ => None,
    }
}

// How many fields stand behind a word.
pub(crate) fn fields_behind(word: Word) -> usize
    ensures { result ≡ fields_behind word }
{
    match word {
        Word::Turn => 1,
        Word::Swap | Word::Flip | Word::Move => 2,
        Word::Keep | Word::Undo | Word::Pack => 0,
    }
}
