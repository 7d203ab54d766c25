// The calls that change a lent layout.
ghost use Rattle.std.specs.Prelude.{◌≡◌};
ghost use Rattle.model.specs.Edits.{add_of, link_of, unlink_of, move_of};
ghost use Rattle.model.specs.GreedyAppend.{lay_of};
ghost use Rattle.model.specs.Sifting.{sift_of, round_of, settle_of};
ghost use Rattle.model.specs.Reports.{add_report, append_report, sift_report, round_report, converge_report};

use crate::stores::{change, store};
use model::{AddReport, AppendReport, ConvergeReport, Layout, RoundReport, SiftReport};

#[unsafe(no_mangle)]
pub extern "C" fn rl_add_vertex(l: &mut Layout) -> AddReport
    ensures { (result ≡ add_report (add_of l.old)) × (l.new ≡ (add_of l.old).layout) }
{
    let answer = layout::add_vertex(*l);
    AddReport::from(store(l, answer))
}

#[unsafe(no_mangle)]
pub extern "C" fn rl_add_edge(l: &mut Layout, a: usize, b: usize, weight: u8) -> u8
    ensures { (result ≡ (link_of l.old a b weight).refusal) × (l.new ≡ (link_of l.old a b weight).layout) }
{
    let answer = edges::add_edge(*l, a, b, weight);
    change(l, answer)
}

#[unsafe(no_mangle)]
pub extern "C" fn rl_remove_edge(l: &mut Layout, a: usize, b: usize) -> u8
    ensures { (result ≡ (unlink_of l.old a b).refusal) × (l.new ≡ (unlink_of l.old a b).layout) }
{
    let answer = edges::remove_edge(*l, a, b);
    change(l, answer)
}

#[unsafe(no_mangle)]
pub extern "C" fn rl_move_after(l: &mut Layout, a: usize, b: usize) -> u8
    ensures { (result ≡ (move_of l.old a b).refusal) × (l.new ≡ (move_of l.old a b).layout) }
{
    let answer = layout::move_after(*l, a, b);
    change(l, answer)
}

#[unsafe(no_mangle)]
pub extern "C" fn rl_greedy_append(l: &mut Layout, start: usize) -> AppendReport
    ensures { (result ≡ append_report (lay_of l.old start)) × (l.new ≡ (lay_of l.old start).layout) }
{
    let answer = append::greedy_append(*l, start);
    AppendReport::from(store(l, answer))
}

#[unsafe(no_mangle)]
pub extern "C" fn rl_sift(l: &mut Layout, u: usize) -> SiftReport
    ensures { (result ≡ sift_report (sift_of l.old u)) × (l.new ≡ (sift_of l.old u).layout) }
{
    let answer = sifting::sift(*l, u);
    SiftReport::from(store(l, answer))
}

#[unsafe(no_mangle)]
pub extern "C" fn rl_sifting_round(l: &mut Layout) -> RoundReport
    ensures { (result ≡ round_report (round_of l.old)) × (l.new ≡ (round_of l.old).layout) }
{
    let answer = sifting::sifting_round(*l);
    RoundReport::from(store(l, answer))
}

#[unsafe(no_mangle)]
pub extern "C" fn rl_converge(l: &mut Layout, limit: u32) -> ConvergeReport
    ensures { (result ≡ converge_report (settle_of l.old limit)) × (l.new ≡ (settle_of l.old limit).layout) }
{
    let answer = sifting::converge(*l, limit);
    ConvergeReport::from(store(l, answer))
}
