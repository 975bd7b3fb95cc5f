//! The fields of a line, where there are so many.
ghost use Rattle.std.specs.Prelude.{◌≡◌, map, option_map};
ghost use Rattle.gz_lines.specs.Counts.{first_of, one_of, two_of, three_of};

/// The first field.
pub fn first<'a>(fields: &[&'a [u8]]) -> Option<&'a [u8]>
    ensures { option_map (λ x. x.now) result ≡ first_of (map (λ x. x.now) fields.now) }
{
    match fields {
        [] => None,
        [word, ..] => Some(*word),
    }
}

/// The one field after the first.
#[tactic(auto, using(crate::proofs::CountLemmas::not_one))]
pub fn one<'a>(fields: &[&'a [u8]]) -> Option<&'a [u8]>
    ensures { option_map (λ x. x.now) result ≡ one_of (map (λ x. x.now) fields.now) }
{
    match fields {
        [] => None,
        [_] => None,
        [_, x] => Some(*x),
        [_, _, _, ..] => None,
    }
}

/// The two fields after the first.
#[tactic(auto, using(crate::proofs::CountLemmas::not_two))]
pub fn two<'a>(fields: &[&'a [u8]]) -> Option<(&'a [u8], &'a [u8])>
    ensures { option_map (λ p. (p.0.now, p.1.now)) result ≡ two_of (map (λ x. x.now) fields.now) }
{
    match fields {
        [] => None,
        [_] => None,
        [_, _] => None,
        [_, x, y] => Some((*x, *y)),
        [_, _, _, _, ..] => None,
    }
}

/// The three fields after the first.
#[tactic(auto, using(crate::proofs::CountLemmas::not_three))]
pub fn three<'a>(fields: &[&'a [u8]]) -> Option<(&'a [u8], &'a [u8], &'a [u8])>
    ensures { option_map (λ p. (p.0.now, p.1.now, p.2.now)) result ≡ three_of (map (λ x. x.now) fields.now) }
{
    match fields {
        [] => None,
        [_] => None,
        [_, _] => None,
        [_, _, _] => None,
        [_, x, y, z] => Some((*x, *y, *z)),
        [_, _, _, _, _, ..] => None,
    }
}
