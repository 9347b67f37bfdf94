// Where the places of an inset begin and end.
use crate::runs::{TallyAt64, Trial, change, count};
use machines::{Inset, Machine, Pair};
use primitives::Tally;
use std::test::Fail;

// The bases add up to 164.
type TallyAt164 = Inset<TallyAt64, 100>;

type TallyAt65535 = Inset<Tally, 65535>;

#[test]
fn the_places_of_a_tally_inset_at_64_are_64_to_127(rt: HostRuntime) {
    assert!(rt; !TallyAt64::knows(&change(0, 1)));
    assert!(rt; !TallyAt64::knows(&change(63, 1)));
    assert!(rt; TallyAt64::knows(&change(64, 1)));
    assert!(rt; TallyAt64::knows(&change(127, 1)));
    assert!(rt; !TallyAt64::knows(&change(128, 1)));
    assert!(rt; !TallyAt64::answers(&count(63)));
    assert!(rt; TallyAt64::answers(&count(64)));
    assert!(rt; TallyAt64::answers(&count(127)));
    assert!(rt; !TallyAt64::answers(&count(128)));
}

#[test]
fn the_place_at_the_base_is_cell_0(rt: HostRuntime) -> Result<(), Fail> {
    let mut inset = Trial::<TallyAt64>::new(rt.alloc())?;
    assert_eq!(rt; inset.step(change(64, 5))?, Some(0));
    assert_eq!(rt; inset.read(count(64)), Some(5));
    assert_eq!(rt; inset.read(count(65)), Some(0));
    inset.take_back()?;
    assert_eq!(rt; inset.read(count(64)), Some(0));
    Ok(())
}

#[test]
fn a_step_below_the_base_is_idle(rt: HostRuntime) -> Result<(), Fail> {
    let mut inset = Trial::<TallyAt64>::new(rt.alloc())?;
    assert_eq!(rt; inset.step(change(63, 5))?, None);
    assert_eq!(rt; inset.read(count(63)), None);
    assert_eq!(rt; inset.read(count(64)), Some(0));
    assert_eq!(rt; inset.read(count(127)), Some(0));
    inset.take_back()?;
    assert_eq!(rt; inset.read(count(64)), Some(0));
    Ok(())
}

#[test]
fn two_tallies_side_by_side_share_no_cell(rt: HostRuntime) -> Result<(), Fail> {
    let mut tallies = Trial::<Pair<Tally, TallyAt64>>::new(rt.alloc())?;
    assert_eq!(rt; tallies.step(change(0, 5))?, Some(0));
    assert_eq!(rt; tallies.step(change(64, 7))?, Some(0));
    assert_eq!(rt; tallies.read(count(0)), Some(5));
    assert_eq!(rt; tallies.read(count(64)), Some(7));
    assert_eq!(rt; tallies.read(count(128)), None);
    Ok(())
}

#[test]
fn the_bases_of_insets_in_one_another_add_up(rt: HostRuntime) {
    assert!(rt; !TallyAt164::knows(&change(163, 1)));
    assert!(rt; TallyAt164::knows(&change(164, 1)));
    assert!(rt; TallyAt164::knows(&change(227, 1)));
    assert!(rt; !TallyAt164::knows(&change(228, 1)));
}

#[test]
fn the_last_place_may_be_the_base(rt: HostRuntime) {
    assert!(rt; !TallyAt65535::knows(&change(65534, 1)));
    assert!(rt; TallyAt65535::knows(&change(65535, 1)));
}
