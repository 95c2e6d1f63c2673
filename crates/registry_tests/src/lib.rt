// Tests of the register where all calls are taken: those of every stage, and of weddings, partings and estates.
#![tactic(auto)]

#[cfg(test)]
mod tests {
    use register::session::Register;
    use register::store::Store;
    use register_checks::{BYTES, MOST_BYTES, MOST_WORDS, WORDS};
    use service::stage::AllCalls;
    use std::test::Fail;
    use wire::{Reading, Request, Share};

    #[test]
    fn births(rt: HostRuntime) -> Result<(), Fail> {
        assert!(rt; register_checks::births::<AllCalls>(rt.alloc())?);
        Ok(())
    }

    #[test]
    fn persons_who_are_not_there(rt: HostRuntime) -> Result<(), Fail> {
        assert!(rt; register_checks::persons_who_are_not_there::<AllCalls>(rt.alloc())?);
        Ok(())
    }

    #[test]
    fn dying_twice(rt: HostRuntime) -> Result<(), Fail> {
        assert!(rt; register_checks::dying_twice::<AllCalls>(rt.alloc())?);
        Ok(())
    }

    #[test]
    fn births_beyond_the_limit(rt: HostRuntime) -> Result<(), Fail> {
        assert!(rt; register_checks::births_beyond_the_limit::<AllCalls>(rt.alloc())?);
        Ok(())
    }

    #[test]
    fn rows_that_are_no_calls(rt: HostRuntime) -> Result<(), Fail> {
        assert!(rt; register_checks::rows_that_are_no_calls::<AllCalls>(rt.alloc())?);
        Ok(())
    }

    #[test]
    fn openings_that_are_refused(rt: HostRuntime) -> Result<(), Fail> {
        assert!(rt; register_checks::openings_that_are_refused::<AllCalls>(rt.alloc())?);
        Ok(())
    }

    #[test]
    fn a_dead_chain_lives_again(rt: HostRuntime) -> Result<(), Fail> {
        assert!(rt; register_checks::a_dead_chain_lives_again::<AllCalls>(rt.alloc())?);
        Ok(())
    }

    #[test]
    fn as_many_persons_as_there_may_be(rt: HostRuntime) -> Result<(), Fail> {
        assert!(rt; register_checks::as_many_persons_as_there_may_be::<AllCalls>(rt.alloc())?);
        Ok(())
    }

    #[test]
    fn a_parent_of_60(rt: HostRuntime) -> Result<(), Fail> {
        assert!(rt; register_checks::a_parent_of_60::<AllCalls>(rt.alloc())?);
        Ok(())
    }

    #[test]
    fn a_child_of_cousins(rt: HostRuntime) -> Result<(), Fail> {
        assert!(rt; register_checks::a_child_of_cousins::<AllCalls>(rt.alloc())?);
        Ok(())
    }

    #[test]
    fn the_words_of_memory(rt: HostRuntime) -> Result<(), Fail> {
        assert!(rt; register_checks::the_words_of_memory::<AllCalls>(rt.alloc())?);
        Ok(())
    }

    #[test]
    fn the_bytes_of_calls(rt: HostRuntime) -> Result<(), Fail> {
        assert!(rt; register_checks::the_bytes_of_calls::<AllCalls>(rt.alloc())?);
        Ok(())
    }

    // A widow has a spouse until she is parted from the dead one, and relatives may wed.
    #[test]
    fn weddings_and_partings(rt: HostRuntime) -> Result<(), Fail> {
        let steps = [
            (Request::Wed(0, 1), Reading::Refused(4, 0)),
            (Request::Parted(0), Reading::Refused(4, 0)),
            (Request::Born(0, 0), Reading::Number(0)),
            (Request::Born(0, 0), Reading::Number(1)),
            (Request::Born(1, 2), Reading::Number(2)),
            (Request::Wed(0, 3), Reading::Refused(4, 0)),
            (Request::Wed(4294967295, 0), Reading::Refused(4, 0)),
            (Request::Wed(0, 0), Reading::Refused(5, 0)),
            (Request::Parted(0), Reading::Refused(5, 0)),
            (Request::Wed(0, 2), Reading::Number(0)),
            (Request::Wed(0, 1), Reading::Refused(5, 0)),
            (Request::Wed(1, 2), Reading::Refused(5, 0)),
            (Request::Dies(2), Reading::Number(2)),
            (Request::Wed(0, 1), Reading::Refused(5, 0)),
            (Request::Parted(2), Reading::Number(0)),
            (Request::Parted(0), Reading::Refused(5, 0)),
            (Request::Wed(2, 1), Reading::Refused(5, 0)),
            (Request::Wed(1, 2), Reading::Refused(5, 0)),
            (Request::Wed(1, 0), Reading::Number(1)),
            (Request::Parted(0), Reading::Number(1)),
        ];
        assert!(rt; register_checks::answers::<AllCalls>(rt.alloc(), 64, &steps)?);
        Ok(())
    }

    // The answer to an estate: a refusal, or how many shares it has and the last of them.
    #[derive(Clone, Copy, PartialEq, Debug)]
    enum Divided {
        Refused(u32),
        Shares(u32, Option<Share>),
    }

    // So many shares, of which the last is up by down of the estate.
    const fn shares(count: u32, who: u32, up: u64, down: u64) -> Divided {
        Divided::Shares(count, Some(Share { who, up, down }))
    }

    // What is said of somebody's estate; none where what is written is no answer of an estate.
    fn estate_of(register: &mut Register<AllCalls>, who: u32) -> Option<Divided> {
        let answer = register_checks::ask(register, Request::EstateOf(who))?;
        match wire::read_answer(answer)? {
            Reading::Refused(refusal, 0) => Some(Divided::Refused(refusal)),
            Reading::Shares(count) => Some(Divided::Shares(
                count,
                wire::read_share(answer, count.saturating_sub(1)),
            )),
            _ => None,
        }
    }

    // Whether the estate of somebody is answered so.
    fn is_divided(register: &mut Register<AllCalls>, who: u32, expected: Divided) -> bool {
        estate_of(register, who) == Some(expected)
    }

    // Whether so many children of 0 are born after 0 and 1.
    fn are_children_of_0(register: &mut Register<AllCalls>, children: u32) -> bool {
        (2..children.saturating_add(2)).all(|child| register_checks::is_born(register, 1, child))
    }

    // Whether 0, with the spouse 1, has so many children, and the estate is answered so, while the spouse lives and after.
    fn divides_beside_spouse(
        words: &mut [u32],
        bytes: &mut [u8],
        children: u32,
        beside: Divided,
        alone: Divided,
    ) -> bool {
        let mut store = Store::new(words, bytes);
        let Ok(mut register) = Register::<AllCalls>::open(&mut store, 4096) else {
            return false;
        };
        let steps = [
            (Request::Born(0, 0), Reading::Number(0)),
            (Request::Born(0, 0), Reading::Number(1)),
            (Request::Wed(0, 1), Reading::Number(0)),
        ];
        register_checks::are_answered(&mut register, &steps)
            && are_children_of_0(&mut register, children)
            && is_divided(&mut register, 0, beside)
            && register_checks::dies(&mut register, 1)
            && is_divided(&mut register, 0, alone)
    }

    // Three parts for each of 1,365 children and one of the spouse's are 4,096.
    #[test]
    fn children_beside_a_spouse(rt: HostRuntime) -> Result<(), Fail> {
        let mut words = vec![in rt.alloc(); 7u32; MOST_WORDS]?;
        let mut bytes = vec![in rt.alloc(); 7u8; MOST_BYTES]?;
        let cases = [
            (3, shares(4, 4, 1, 4), shares(3, 4, 1, 3)),
            (
                1365,
                shares(1366, 1366, 1, 1820),
                shares(1365, 1366, 1, 1365),
            ),
            (1366, Divided::Refused(6), shares(1366, 1367, 1, 1366)),
            (0, shares(1, 1, 1, 1), Divided::Shares(0, None)),
        ];
        for (children, beside, alone) in cases {
            assert!(rt; divides_beside_spouse(&mut words, &mut bytes, children, beside, alone));
        }
        Ok(())
    }

    // Whether somebody is born whose parents are the pair above, or who has none in the first pair.
    fn is_born_of_pair(register: &mut Register<AllCalls>, who: u32) -> bool {
        let above = who / 2 * 2;
        let birth = Request::Born(above.saturating_sub(1), above);
        register_checks::is_answered(register, (birth, Reading::Number(who)))
    }

    // Whether persons before this one are born, each of the pair above.
    fn are_pairs(register: &mut Register<AllCalls>, end: u32) -> bool {
        (0..end).all(|who| is_born_of_pair(register, who))
    }

    // Whether the estate of 0 is answered so where so many pairs of siblings follow one another, each the children of the pair above, and then one child; all but
    // that child and the first pair are dead.
    fn divides_pairs(words: &mut [u32], bytes: &mut [u8], pairs: u32, expected: Divided) -> bool {
        let mut store = Store::new(words, bytes);
        let Ok(mut register) = Register::<AllCalls>::open(&mut store, 64) else {
            return false;
        };
        let last = 2 * pairs.min(30) + 2;
        are_pairs(&mut register, last + 1)
            && register_checks::die(&mut register, 2, last)
            && is_divided(&mut register, 0, expected)
    }

    // Twelve pairs are 4,096 parts, all of one heir; thirteen are too many.
    #[test]
    fn lines_that_meet_again(rt: HostRuntime) -> Result<(), Fail> {
        let mut words = vec![in rt.alloc(); 7u32; WORDS]?;
        let mut bytes = vec![in rt.alloc(); 7u8; BYTES]?;
        assert!(rt; divides_pairs(&mut words, &mut bytes, 12, shares(1, 26, 1, 1)));
        assert!(rt; divides_pairs(&mut words, &mut bytes, 13, Divided::Refused(6)));
        Ok(())
    }

    // Whether in a chain of 4,096 persons, all dead but the first and the last, the last has the estates of the first and of a dead one, and nobody has the last one's.
    fn divides_chain(words: &mut [u32], bytes: &mut [u8]) -> bool {
        let mut store = Store::new(words, bytes);
        let Ok(mut register) = Register::<AllCalls>::open(&mut store, 4096) else {
            return false;
        };
        register_checks::are_chain(&mut register, 4096)
            && register_checks::die(&mut register, 1, 4095)
            && is_divided(&mut register, 0, shares(1, 4095, 1, 1))
            && is_divided(&mut register, 7, shares(1, 4095, 1, 1))
            && is_divided(&mut register, 4095, Divided::Shares(0, None))
    }

    #[test]
    fn a_chain_of_4096(rt: HostRuntime) -> Result<(), Fail> {
        let mut words = vec![in rt.alloc(); 7u32; MOST_WORDS]?;
        let mut bytes = vec![in rt.alloc(); 7u8; MOST_BYTES]?;
        assert!(rt; divides_chain(&mut words, &mut bytes));
        Ok(())
    }
}
