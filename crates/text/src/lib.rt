// The printed text of document 01, "The printing program": an answer's line and the lines of its pairs, or the line of a refusal.
#![tactic(auto)]

mod fields;

ghost use Rattle.std.specs.Prelude.{◌≡◌, [], ◌∷◌, ◌++◌, ◌+◌, ◌*◌, ◌≤◌, ◌<◌, length, OnOk};
ghost use Rattle.specification.specs.Text.{decimal, line, refused_word, pair_lines};
ghost use Rattle.text.specs.Lengths.{pair_most, pairs_most, text_most};
ghost use Rattle.text.specs.Rendering.{answer_text, AtMost32, Renders};

pub use fields::{TEXT_MOST, Text};
use specification::{Call, Counts, Lot, Placed, Refusal};

// The line of a pair: lot, call, units.
#[tactic(auto, using(crate::proofs::Decimals::widths), unfolding(specification::specs::Text::line))]
fn pair_line(text: &mut Text, lot: Lot, call: Call, units: u32)
    requires { (lot.0 < 32) × (call.0 < 32) × (length text.old + pair_most ≤ text_most) }
    ensures appended { text.new ≡ text.old ++ line (decimal lot.0) (decimal call.0 ∷ decimal units ∷ []) }
    ensures within { length text.new ≤ length text.old + pair_most }
{
    text.number(lot.0 as u64);
    text.field(call.0 as u64);
    text.field(u64::from(units));
    text.end_line();
}

// The lines of the pairs with units among the lots' and calls' entries of a flow, by lot and then call.
fn pair_lines(text: &mut Text, counts: Counts, flow: &[u32; 1024])
    requires { AtMost32 counts × (length text.old + pairs_most ≤ text_most) }
    ensures { text.new ≡ text.old ++ pair_lines counts.calls flow.now (counts.lots * counts.calls) }
{
    let m = counts.calls;
    for (k, &units) in flow[..counts.lots * m].iter().enumerate() {
        if units != 0 {
            pair_line(text, Lot(k / m), Call(k % m), units);
        }
    }
}

// The text of an answer that is no refusal: the first line, and the pairs' lines.
#[tactic(auto, using(crate::proofs::Decimals::widths), unfolding(specification::specs::Text::line))]
fn answer_text(verdict: &[u8], units: u64, cost: i64, counts: Counts, flow: &[u32; 1024]) -> Text
    requires { AtMost32 counts × (length verdict.now ≤ 7) }
    ensures { result ≡ answer_text verdict.now units cost counts flow.now }
{
    let mut text = Text::new();
    text.word(verdict);
    text.field(units);
    text.put(b' ');
    text.signed_number(cost);
    text.end_line();
    pair_lines(&mut text, counts, flow);
    text
}

// The text of a refusal: its number.
#[tactic(auto, using(crate::proofs::Decimals::widths), unfolding(specification::specs::Text::line))]
fn refusal(k: u32) -> Text
    ensures { result ≡ line refused_word (decimal k ∷ []) }
{
    let mut text = Text::new();
    text.word(b"REFUSED");
    text.field(u64::from(k));
    text.end_line();
    text
}

// The printed text of an answer and its flow.
#[tactic(auto, unfolding(specification::specs::Text::text_of))]
pub fn render(answer: Result<Placed, Refusal>, counts: Counts, flow: &[u32; 1024]) -> Text
    requires { OnOk answer (AtMost32 counts) }
    ensures { Renders answer counts flow.now result }
{
    match answer {
        Ok(Placed::Full(units, cost)) => answer_text(b"FULL", units, cost, counts, flow),
        Ok(Placed::Covered(units, cost)) => answer_text(b"COVERED", units, cost, counts, flow),
        Ok(Placed::Short(units, cost)) => answer_text(b"SHORT", units, cost, counts, flow),
        Err(r) => refusal(r.number()),
    }
}
