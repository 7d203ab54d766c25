// The table in which every edge that the words hold weighs 1.
ghost use Rattle.std.specs.Prelude.{◌≡◌};
ghost use Rattle.weights.specs.Units.{unit_table};

pub fn unit_table(adjacency: &[u64; 64]) -> [u8; 4096]
    ensures { result ≡ unit_table adjacency.now }
{
    let mut weights = [0; 4096];
    for (i, weight) in weights.iter_mut().enumerate() {
        *weight = ((adjacency[i / 64] >> (i % 64)) % 2) as u8;
    }
    weights
}
