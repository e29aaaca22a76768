// The weights of members 1 to m, and the joining of their shares.
ghost use Rattle.std.specs.Prelude.{◌≡◌, ◌<◌, ◌≤◌, length, take, ◌≢◌};
ghost use Rattle.field.specs.Field.{p};
ghost use Rattle.shares.specs.Circle.{members};
ghost use Rattle.shares.specs.Weights.{ratio as ratio_of, weight_among, weights as weights_of, dot};

// The weights of members 1 to m, for the m places of `weights`.
pub fn fill_weights(weights: &mut [u32])
    requires { length weights.old ≤ 15 }
    ensures { weights.new ≡ weights_of (length weights.old) }
{
    let m = weights.len();
    for (i, place) in weights.iter_mut().enumerate() {
        *place = weight(i + 1, m);
    }
}

// Member i's weight among 1 to m.
fn weight(i: usize, m: usize) -> u32
    requires { (0 < i) × (i ≤ 15) × (m ≤ 15) }
    ensures { result ≡ weight_among (members m) i }
{
    let mut w = 1;
    for k in 1..m + 1 {
        if k != i {
            w = field::product(w, ratio(i, k));
        }
    }
    w
}

// k / (k - i)
fn ratio(i: usize, k: usize) -> u32
    requires { (i ≤ 15) × (k ≤ 15) × (i ≢ k) }
    ensures { result ≡ ratio_of i k }
{
    if i < k {
        field::product(k as u32, field::inverse(k - i))
    } else {
        field::product(k as u32, field::negative(field::inverse(i - k)))
    }
}

// The sum of the first m shares, each times its weight, for m weights.
pub fn join(weights: &[u32], shares: &[u32]) -> u32
    requires { length weights.now ≤ length shares.now }
    ensures { (result ≡ dot weights.now (take (length weights.now) shares.now)) × (result < p) }
{
    let mut joined = 0;
    for (weight, share) in weights.iter().zip(shares) {
        joined = field::sum(joined, field::product(*weight, *share));
    }
    joined
}
