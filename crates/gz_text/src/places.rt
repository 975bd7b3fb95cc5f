//! The fields of a line by their places.
ghost use Rattle.std.specs.Prelude.{◌≡◌, map, option_map};
ghost use Rattle.gz_text.specs.Places.{field_at, fields_from, pair_of};

/// The field at a place, counted from 0; an empty one where there is none.
pub fn field_at<'a>(fields: &[&'a [u8]], place: usize) -> &'a [u8]
    ensures { result.now ≡ field_at place (map (λ x. x.now) fields.now) }
{
    if place < fields.len() {
        fields[place]
    } else {
        b"".as_slice()
    }
}

/// The fields from a place on.
pub fn fields_from<'a, 'b>(fields: &'b [&'a [u8]], place: usize) -> &'b [&'a [u8]]
    ensures { map (λ x. x.now) result.now ≡ fields_from place (map (λ x. x.now) fields.now) }
{
    if place < fields.len() {
        &fields[place..]
    } else {
        &[]
    }
}

/// Two parts.
#[tactic(auto, using(crate::proofs::CountLemmas::no_pair))]
pub fn pair<'a>(parts: &[&'a [u8]]) -> Option<(&'a [u8], &'a [u8])>
    ensures { option_map (λ pair. (pair.0.now, pair.1.now)) result ≡ pair_of (map (λ x. x.now) parts.now) }
{
    match parts {
        [] => None,
        [_] => None,
        [first, second] => Some((*first, *second)),
        [_, _, _, ..] => None,
    }
}
