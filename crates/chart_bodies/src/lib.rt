// What the bodies of a chart's fields 4C and 52 give: the edges (links) as adjacency words, question 7,
// and the vertices (devices) in their order, question 8.
#![tactic(auto)]

ghost use Rattle.std.specs.Prelude.{◌≡◌, []};
ghost use Rattle.model.specs.Charts.{asked, answer, repeat_checks};
ghost use Rattle.laws.specs.Charts.Wrapped.{wrapped};
ghost use Rattle.chart_bodies.specs.Words.{words_over};
ghost use Rattle.chart_bodies.specs.Order.{order_question};

use model::Refusal;

// Question 7: each pair only once, either way round. An end is taken modulo 64. The edges go into the
// words one after the other, so a pair is written again exactly when its bit is set already; the lent
// words then stay as they came.
pub fn join_edges(links: &[u8], adjacency: &mut [u64; 64]) -> Result<(), Refusal>
    ensures result_value { asked result ≡ answer (repeat_checks (wrapped links.now)) [] }
    ensures adjacency_after { adjacency.new ≡ words_over adjacency.old (wrapped links.now) }
{
    let mut joined = [0; 64];
    let (pairs, _) = links.as_chunks::<2>();
    for &[a, b] in pairs {
        let u = a as usize % 64;
        let v = b as usize % 64;
        if words::is_set(joined[u], v) {
            return Err(Refusal::RepeatedEdge);
        }
        ends::join(&mut joined, u, v);
    }
    *adjacency = joined;
    Ok(())
}

// Question 8: at most 64 vertices, and n bytes that hold each of them once.
pub fn ask_order(n: usize, body: &[u8]) -> Result<(), Refusal>
    ensures { asked result ≡ answer (order_question n body.now) [] }
{
    if body.len() == n && orders::is_order(n, body) {
        Ok(())
    } else {
        Err(Refusal::NoOrder)
    }
}
