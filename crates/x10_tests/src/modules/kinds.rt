use x10_kinds::{Homes, Kind, Limit, Stop, Term, fits, laws, meet};

#[test]
fn kinds_fit_themselves_and_objects_may_be_null(rt: HostRuntime) {
    let kinds = [
        Kind::Int,
        Kind::Place,
        Kind::Text,
        Kind::Rail,
        Kind::Obj(1),
        Kind::Opt(1),
        Kind::GRef(1),
        Kind::Obj(2),
    ];
    for (row, have) in kinds.iter().enumerate() {
        for (column, want) in kinds.iter().enumerate() {
            let expected = row == column || (row == 4 && column == 5);
            assert_eq!(rt;
                fits(*have, *want),
                expected,
                "{have:?} where {want:?} is asked for"
            );
        }
    }
    laws::fitting_is_an_order();
}

#[test]
fn an_object_and_a_null_of_its_class_meet(rt: HostRuntime) {
    let cases = [
        (Kind::Int, Kind::Int, Some(Kind::Int)),
        (Kind::Int, Kind::Place, None),
        (Kind::GRef(3), Kind::GRef(3), Some(Kind::GRef(3))),
        (Kind::GRef(3), Kind::GRef(4), None),
        (Kind::Obj(3), Kind::Obj(3), Some(Kind::Obj(3))),
        (Kind::Obj(3), Kind::Opt(3), Some(Kind::Opt(3))),
        (Kind::Opt(3), Kind::Obj(3), Some(Kind::Opt(3))),
        (Kind::Obj(3), Kind::Opt(4), None),
        (Kind::Obj(3), Kind::GRef(3), None),
    ];
    for (a, b, common) in cases.iter() {
        assert_eq!(rt; meet(*a, *b), *common, "{a:?} and {b:?}");
    }
    laws::meet_is_least();
}

#[test]
fn equations_are_joined(rt: HostRuntime) {
    let mut homes = Homes::new();
    assert!(rt; !homes.same(Term::Reg(1), Term::Here));
    homes.join(Term::Reg(1), Term::Here);
    homes.join(Term::Reg(2), Term::Reg(3));
    homes.join(Term::Reg(3), Term::Place(5));
    assert!(rt; homes.same(Term::Reg(2), Term::Place(5)));
    assert!(rt; !homes.same(Term::Reg(1), Term::Reg(2)));

    homes.join(Term::Reg(1), Term::Reg(2));
    assert!(rt; homes.same(Term::Here, Term::Place(5)));
    assert!(rt; !homes.same(Term::Reg(4), Term::Here));
}

#[test]
fn a_write_takes_the_register_out_of_its_class(rt: HostRuntime) {
    let mut homes = Homes::new();
    homes.join(Term::Reg(10), Term::Reg(11));
    homes.join(Term::Reg(11), Term::Reg(12));

    homes.write(10, Some(Term::Reg(10)));
    assert!(rt; homes.same(Term::Reg(10), Term::Reg(12)));

    homes.write(10, None);
    assert!(rt; !homes.same(Term::Reg(10), Term::Reg(11)));
    assert!(rt; homes.same(Term::Reg(11), Term::Reg(12)));

    homes.write(11, Some(Term::Place(63)));
    assert!(rt; !homes.same(Term::Reg(11), Term::Reg(12)));
    assert!(rt; homes.same(Term::Reg(11), Term::Place(63)));
}

#[test]
fn two_ways_meet_in_what_both_know(rt: HostRuntime) {
    let mut one = Homes::new();
    one.join(Term::Reg(1), Term::Here);
    one.join(Term::Reg(2), Term::Here);
    one.join(Term::Reg(63), Term::Place(0));
    let mut two = Homes::new();
    two.join(Term::Reg(1), Term::Place(4));
    two.join(Term::Reg(2), Term::Place(4));
    two.join(Term::Reg(63), Term::Place(0));

    let both = one.meet(&two);
    assert!(rt; both.same(Term::Reg(1), Term::Reg(2)));
    assert!(rt; both.same(Term::Reg(63), Term::Place(0)));
    assert!(rt; !both.same(Term::Reg(1), Term::Here));
    assert!(rt; !both.same(Term::Reg(1), Term::Place(4)));
    assert!(rt; one.entails(&both) && two.entails(&both));
    assert!(rt; !both.entails(&one) && !one.entails(&two));
}

#[test]
fn equations_are_given_up(rt: HostRuntime) {
    let mut one = Homes::new();
    one.join(Term::Reg(1), Term::Here);
    one.join(Term::Reg(2), Term::Here);
    let mut two = Homes::new();
    two.join(Term::Reg(1), Term::Reg(2));

    let before = one;
    assert!(rt; !two.weaken(&one));
    assert!(rt; one.weaken(&two));
    assert!(rt; one.same(Term::Reg(1), Term::Reg(2)) && !one.same(Term::Reg(1), Term::Here));
    assert!(rt; !one.weaken(&before));
}

#[test]
fn causes_are_told_apart(rt: HostRuntime) {
    assert!(rt;
        Stop::Limit(Limit::FrameObjects) != Stop::Limit(Limit::FrameTexts)
            && Stop::Memory != Stop::Stopped
    );
    assert_eq!(rt;
        Stop::Limit(Limit::FrameObjects),
        Stop::Limit(Limit::FrameObjects)
    );
}
