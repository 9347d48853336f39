use crate::{Claims, NONE, Offer};
use std::test::Fail;

#[test]
fn one_seat_claims_two_ranks_of_a_word(rt: HostRuntime) -> Result<(), Fail> {
    let offers = [
        Offer {
            word: 0,
            rank: 72057594037927939,
        },
        Offer {
            word: 0,
            rank: 144115192370823170,
        },
    ];
    let (claims, mut seat) = Claims::open(rt.alloc(), 1, &offers)?;
    assert_eq!(rt; claims.claim(&mut seat, &offers, 0), NONE);
    assert_eq!(rt; claims.claim(&mut seat, &offers, 1), 72057594037927939);
    assert_eq!(rt; claims.least(&mut seat, 0), 72057594037927939);
    let words = match claims.close(seat) {
        Ok(words) => words,
        // What comes back can be closed again, as with `rt try --test --fail-alloc 4`.
        Err((claims, seat)) => claims.close(seat).ok().ok_or("no memory")?,
    };
    assert!(rt; words.as_slice() == [72057594037927939].as_slice());
    Ok(())
}

#[test]
fn a_table_for_nothing_closes_to_nothing(rt: HostRuntime) -> Result<(), Fail> {
    let (claims, mut seat) = Claims::open(rt.alloc(), 0, &[])?;
    let other = claims.split(&mut seat);
    claims.join(&mut seat, other);
    let Ok(words) = claims.close(seat) else {
        panic!(rt; "no memory for an empty list")
    };
    assert!(rt; words.is_empty());
    Ok(())
}
