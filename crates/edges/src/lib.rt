// Adding and removing an edge (document 01: link, unlink), with its weight (document 02, Note 8). The two
// calls share no step but the last, so one over closures would be no plainer.
#![tactic(auto)]

ghost use Rattle.std.specs.Prelude.{◌≡◌};
ghost use Rattle.model.specs.Answers.{refusal_number, as_changed};
ghost use Rattle.model.specs.Checks.{refusal};
ghost use Rattle.model.specs.Edits.{link_checks, unlink_checks, link_of, unlink_of};

use carrying::recounted;
use model::{Layout, Refusal};
use validity::check_pair;

pub fn add_edge(l: Layout, a: usize, b: usize, weight: u8) -> Result<Layout, Refusal>
    ensures { as_changed l result ≡ link_of l a b weight }
{
    check_add(l, a, b, weight)?;
    let mut adjacency = l.adjacency;
    let mut weights = l.weights;
    ends::join(&mut adjacency, a, b);
    weights::set_both(&mut weights, a, b, weight);
    Ok(recounted(
        l,
        Layout {
            adjacency,
            weights,
            ..l
        },
    ))
}

pub fn remove_edge(l: Layout, a: usize, b: usize) -> Result<Layout, Refusal>
    ensures { as_changed l result ≡ unlink_of l a b }
{
    check_remove(l, a, b)?;
    let mut adjacency = l.adjacency;
    let mut weights = l.weights;
    ends::part(&mut adjacency, a, b);
    weights::set_both(&mut weights, a, b, 0);
    Ok(recounted(
        l,
        Layout {
            adjacency,
            weights,
            ..l
        },
    ))
}

// Are the two vertices not joined yet, and is there a weight?
fn check_add(l: Layout, a: usize, b: usize, weight: u8) -> Result<(), Refusal>
    ensures { refusal_number result ≡ refusal (link_checks l a b weight) }
{
    check_pair(l, a, b)?;
    if words::is_set(l.adjacency[a], b) {
        return Err(Refusal::Joined);
    }
    if weight == 0 {
        return Err(Refusal::ZeroWeight);
    }
    Ok(())
}

// Are the two vertices joined?
fn check_remove(l: Layout, a: usize, b: usize) -> Result<(), Refusal>
    ensures { refusal_number result ≡ refusal (unlink_checks l a b) }
{
    check_pair(l, a, b)?;
    if !words::is_set(l.adjacency[a], b) {
        return Err(Refusal::NotJoined);
    }
    Ok(())
}
