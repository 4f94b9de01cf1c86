//! The list of the open transactions, so that the least interval of them is found without a walk over all blocks.
ghost use Rattle.std.specs.Prelude.{◌≡◌, ◌<◌, ◌≤◌, length, nat_lt, count_by, vec_capacity, Some, None};
ghost use Rattle.home_directory.specs.Open.{opens_after, without_place, least_in};

use sn_base::Interval;

/// An open transaction: the place of its entry, and the interval in which it was begun.
#[derive(Clone, Copy, PartialEq, Eq, Debug)]
pub struct Open {
    pub place: usize,
    pub begun: Interval,
}

fn drop_place(opens: &mut Vec<Open>, place: usize)
    ensures items { opens.new.items ≡ without_place place opens.old.items }
    ensures room { vec_capacity opens.new ≡ vec_capacity opens.old }
{
    opens.retain(|open| open.place != place);
}

fn count_before(opens: &[Open], place: usize) -> usize
    ensures count { result ≡ count_by (λ o. nat_lt o.place place) opens.now }
    ensures inside { result ≤ length opens.now }
{
    opens.iter().filter(|open| open.place < place).count()
}

/// Lists what a place has open now, in order of places.
pub fn relist(opens: &mut Vec<Open>, place: usize, begun: Option<Interval>)
    requires room { length (without_place place opens.old.items) < vec_capacity opens.old }
    ensures listed { opens.new.items ≡ opens_after place begun opens.old.items }
    ensures room { vec_capacity opens.old ≤ vec_capacity opens.new }
{
    drop_place(opens, place);
    if let Some(begun) = begun {
        let before = count_before(opens.as_slice(), place);
        opens.insert(before, Open { place, begun }).unwrap();
    }
}

/// The least interval in the list. None where it is empty.
pub fn least(opens: &[Open]) -> Option<Interval>
    ensures { result ≡ least_in opens.now }
{
    let mut least = None;
    'opens: for open in opens {
        least = match least {
            Some(interval) => Some(open.begun.min(interval)),
            None => Some(open.begun),
        };
    }
    least
}
