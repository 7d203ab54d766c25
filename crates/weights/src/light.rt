// Is no weight above 1? The writer of charts and the export to graph6 ask it.
ghost use Rattle.std.specs.Prelude.{◌≡◌};
ghost use Rattle.laws.specs.Layouts.Units.{none_above_one};

// Of a valid layout: does every edge weigh 1? It is not left early, so that a machine can compare many
// weights at a time.
pub fn all_unit(weights: &[u8; 4096]) -> bool
    ensures { result ≡ none_above_one weights.now }
{
    let mut most: u8 = 0;
    for w in weights {
        most = most.max(*w);
    }
    most <= 1
}
