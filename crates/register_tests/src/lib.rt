// Tests of the register at the stage of births and deaths.
#![tactic(auto)]

#[cfg(test)]
mod tests {
    use service::stage::BirthsAndDeaths;
    use std::test::Fail;
    use wire::{Reading, Request};

    #[test]
    fn calls_that_are_not_taken(rt: HostRuntime) -> Result<(), Fail> {
        let steps = [
            (Request::Wed(0, 1), Reading::Refused(2, 0)),
            (Request::Parted(0), Reading::Refused(2, 0)),
            (Request::EstateOf(0), Reading::Refused(2, 0)),
            (Request::Born(0, 0), Reading::Number(0)),
            (Request::Born(0, 0), Reading::Number(1)),
            (Request::Wed(0, 1), Reading::Refused(2, 0)),
            (Request::Parted(0), Reading::Refused(2, 0)),
            (Request::EstateOf(0), Reading::Refused(2, 0)),
        ];
        assert!(rt; register_checks::answers::<BirthsAndDeaths>(rt.alloc(), 64, &steps)?);
        Ok(())
    }

    #[test]
    fn births(rt: HostRuntime) -> Result<(), Fail> {
        assert!(rt; register_checks::births::<BirthsAndDeaths>(rt.alloc())?);
        Ok(())
    }

    #[test]
    fn persons_who_are_not_there(rt: HostRuntime) -> Result<(), Fail> {
        assert!(rt; register_checks::persons_who_are_not_there::<BirthsAndDeaths>(rt.alloc())?);
        Ok(())
    }

    #[test]
    fn dying_twice(rt: HostRuntime) -> Result<(), Fail> {
        assert!(rt; register_checks::dying_twice::<BirthsAndDeaths>(rt.alloc())?);
        Ok(())
    }

    #[test]
    fn births_beyond_the_limit(rt: HostRuntime) -> Result<(), Fail> {
        assert!(rt; register_checks::births_beyond_the_limit::<BirthsAndDeaths>(rt.alloc())?);
        Ok(())
    }

    #[test]
    fn rows_that_are_no_calls(rt: HostRuntime) -> Result<(), Fail> {
        assert!(rt; register_checks::rows_that_are_no_calls::<BirthsAndDeaths>(rt.alloc())?);
        Ok(())
    }

    #[test]
    fn openings_that_are_refused(rt: HostRuntime) -> Result<(), Fail> {
        assert!(rt; register_checks::openings_that_are_refused::<BirthsAndDeaths>(rt.alloc())?);
        Ok(())
    }

    #[test]
    fn a_dead_chain_lives_again(rt: HostRuntime) -> Result<(), Fail> {
        assert!(rt; register_checks::a_dead_chain_lives_again::<BirthsAndDeaths>(rt.alloc())?);
        Ok(())
    }

    #[test]
    fn as_many_persons_as_there_may_be(rt: HostRuntime) -> Result<(), Fail> {
        assert!(rt;
            register_checks::as_many_persons_as_there_may_be::<BirthsAndDeaths>(rt.alloc())?
        );
        Ok(())
    }

    #[test]
    fn a_parent_of_60(rt: HostRuntime) -> Result<(), Fail> {
        assert!(rt; register_checks::a_parent_of_60::<BirthsAndDeaths>(rt.alloc())?);
        Ok(())
    }

    #[test]
    fn a_child_of_cousins(rt: HostRuntime) -> Result<(), Fail> {
        assert!(rt; register_checks::a_child_of_cousins::<BirthsAndDeaths>(rt.alloc())?);
        Ok(())
    }

    #[test]
    fn the_words_of_memory(rt: HostRuntime) -> Result<(), Fail> {
        assert!(rt; register_checks::the_words_of_memory::<BirthsAndDeaths>(rt.alloc())?);
        Ok(())
    }

    #[test]
    fn the_bytes_of_calls(rt: HostRuntime) -> Result<(), Fail> {
        assert!(rt; register_checks::the_bytes_of_calls::<BirthsAndDeaths>(rt.alloc())?);
        Ok(())
    }
}
