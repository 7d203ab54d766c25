// The weights of a chart's links (document 02, Note 8): the body of field 57, a byte for each link in the
// sequence of field 4C, or 1 for each where there is no such field.
#![tactic(auto)]

ghost use Rattle.std.specs.Prelude.{◌≡◌, [], map};
ghost use Rattle.model.specs.Lists.{every};
ghost use Rattle.model.specs.Layouts.{is_weight};
ghost use Rattle.model.specs.Charts.{edges_in, asked, answer, weight_checks, with_weights};
ghost use Rattle.laws.specs.Charts.Wrapped.{wrapped};
ghost use Rattle.chart_weights.specs.Listed.{weights_in, ones, pair_edge};

use model::Refusal;

// Questions 24 and 25: one byte for each link, and none of them 0.
#[tactic(auto, using(crate::specs::Listed::ask_none, crate::specs::Listed::ask_many, crate::specs::Listed::ask_all, crate::specs::Listed::ask_zero))]
pub fn ask_weights(links: &[u8], listed: Option<&[u8]>) -> Result<(), Refusal>
    ensures { let ls = links.now in asked result ≡ answer (weight_checks ls (weights_in ls listed.entry)) [] }
{
    let Some(body) = listed else {
        return Ok(());
    };
    if body.len() != links.len() / 2 {
        return Err(Refusal::WeightCount);
    }
    if all_weigh(body) {
        Ok(())
    } else {
        Err(Refusal::ZeroWeight)
    }
}

// Is no byte 0?
fn all_weigh(body: &[u8]) -> bool
    ensures { result ≡ every is_weight body.now }
{
    body.iter().all(|&w| w != 0)
}

// Sets the weight of each link in a table, both ways round. An end is taken modulo 64.
pub fn set_weights(table: &mut [u8; 4096], links: &[u8], listed: Option<&[u8]>)
    ensures { let ls = links.now in
        table.new ≡ with_weights table.old (edges_in (wrapped ls)) (weights_in ls listed.entry) }
{
    let (pairs, _) = links.as_chunks::<2>();
    match listed {
        Some(body) => set_listed(table, pairs, body),
        None => set_ones(table, pairs),
    }
}

// As many as there are of both.
fn set_listed(table: &mut [u8; 4096], pairs: &[[u8; 2]], body: &[u8])
    ensures { table.new ≡ with_weights table.old (map pair_edge pairs.now) body.now }
{
    for (&[a, b], &w) in pairs.iter().zip(body) {
        weights::set_both(table, a as usize, b as usize, w);
    }
}

fn set_ones(table: &mut [u8; 4096], pairs: &[[u8; 2]])
    ensures { table.new ≡ with_weights table.old (map pair_edge pairs.now) (ones pairs.now) }
{
    for &[a, b] in pairs {
        weights::set_both(table, a as usize, b as usize, 1);
    }
}
