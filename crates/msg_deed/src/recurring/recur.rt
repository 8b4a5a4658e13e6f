//! How a transfer recurs (RECURRINST), read and written.

ghost use Rattle.std.specs.Prelude.{◌≡◌, ◌++◌, OnOk, bytes_eq};
ghost use Rattle.std.specs.Io.{StartsWith};
ghost use Rattle.std.specs.List.{find};
ghost use Rattle.std.specs.Option.{option_map};
ghost use Rattle.ofx_types.specs.ValueForm.{value_of};
ghost use Rattle.ofx_types.specs.RecurringForm.{freq_word};
ghost use Rattle.ofx_types.specs.RecurringReading as reading;
ghost use Rattle.ofx_types.specs.DeedText as text;

use ofx_tree::{Cursor, Sheet};
use ofx_types::{Freq, OutOfMemory, Recur, TreeFault};

/// The most digits of a count.
const MAX_BYTES: usize = 3;

/// Each frequency once.
const FREQS: [Freq; 9] = [
    Freq::Weekly,
    Freq::Biweekly,
    Freq::TwiceMonthly,
    Freq::Monthly,
    Freq::FourWeeks,
    Freq::Bimonthly,
    Freq::Quarterly,
    Freq::Semiannually,
    Freq::Annually,
];

/// How the transfer of a request or a reply recurs. It takes no memory.
#[tactic(auto, unfolding(ofx_types::specs::RecurringReading::recur_in))]
pub(crate) fn read_recur_in(parent: &Cursor<'_>) -> Result<Recur, TreeFault>
    ensures { result ≡ reading.recur_in parent.now }
{
    let recurrinst = parent.one(b"RECURRINST")?;
    read_recur(&recurrinst)
}

#[tactic(auto, unfolding(ofx_types::specs::RecurringReading::recur_of))]
fn read_recur(recurrinst: &Cursor<'_>) -> Result<Recur, TreeFault>
    ensures { result ≡ reading.recur_of recurrinst.now }
{
    let count = count_of(recurrinst.maybe(b"NINSTS")?)?;
    let freq = freq_at(&recurrinst.one(b"FREQ")?)?;
    Ok(Recur { count, freq })
}

/// The count, where there is one.
fn count_of(ninsts: Option<Cursor<'_>>) -> Result<Option<u32>, TreeFault>
    ensures { result ≡ reading.count_if_any ninsts.entry }
{
    match ninsts {
        None => Ok(None),
        Some(ninsts) => Ok(Some(count_at(&ninsts)?)),
    }
}

/// The count that an element says, of which 0 is none.
#[tactic(auto, using(crate::proofs::Recurs::count_below))]
fn count_at(ninsts: &Cursor<'_>) -> Result<u32, TreeFault>
    ensures { result ≡ reading.count_at ninsts.now.node }
{
    let count = ninsts.own_number(MAX_BYTES)?;
    if count == 0 {
        return Err(TreeFault::Value(ninsts.offset() as u64));
    }
    Ok(count as u32)
}

/// The frequency that an element says.
fn freq_at(word: &Cursor<'_>) -> Result<Freq, TreeFault>
    ensures { result ≡ reading.freq_at word.now.node }
{
    match freq_named(word) {
        Some(freq) => Ok(freq),
        None => Err(TreeFault::Value(word.offset() as u64)),
    }
}

/// The frequency whose word an element says.
#[tactic(auto, using(crate::proofs::Recurs::freq_turned))]
fn freq_named(word: &Cursor<'_>) -> Option<Freq>
    ensures { result ≡ reading.freq_named (value_of word.now.node.text) }
{
    freq_among(word, &FREQS).copied()
}

/// The first of these frequencies whose word an element says.
fn freq_among<'f>(word: &Cursor<'_>, freqs: &'f [Freq]) -> Option<&'f Freq>
    ensures { option_map (λ freq. freq.now) result ≡ find (λ freq. bytes_eq (value_of word.now.node.text) (freq_word freq)) freqs.now }
{
    freqs.iter().find(|freq| word.value_eq((**freq).word()))
}

/// Writes how a transfer recurs.
#[tactic(auto, unfolding(ofx_types::specs::DeedText::recur_text), using(msg_parts::proofs::Joined::joined))]
pub(crate) fn print_recur(recur: Recur, sheet: &mut Sheet) -> Result<(), OutOfMemory>
    ensures ok { OnOk result (sheet.new ≡ sheet.old ++ text.recur_text recur) }
    ensures kept { StartsWith sheet.new sheet.old }
{
    sheet.start(b"RECURRINST")?;
    print_count(recur.count, sheet)?;
    sheet.element(b"FREQ", recur.freq.word())?;
    sheet.end(b"RECURRINST")
}

/// Writes the count, where there is one.
#[tactic(auto, unfolding(ofx_types::specs::DeedText::count_text))]
fn print_count(count: Option<u32>, sheet: &mut Sheet) -> Result<(), OutOfMemory>
    ensures ok { OnOk result (sheet.new ≡ sheet.old ++ text.count_text count) }
    ensures kept { StartsWith sheet.new sheet.old }
{
    match count {
        Some(count) => sheet.number(b"NINSTS", u64::from(count)),
        None => Ok(()),
    }
}
