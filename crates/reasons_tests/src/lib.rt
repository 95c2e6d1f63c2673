// Tests of the ways of estates, of why somebody has a share or none, and of the lines that say so.
#![tactic(auto)]

#[cfg(test)]
mod tests {
    use people::Person;
    use std::alloc::{AllocError, Global};
    use std::test::Fail;
    use why::{Answer, Fraction};

    // Somebody who lives, by mother and father, 0 or one more than a number.
    const fn living(mother: u32, father: u32) -> Person {
        Person {
            mother,
            father,
            lives: true,
            spouse: 0,
        }
    }

    const fn dead(mother: u32, father: u32) -> Person {
        Person {
            lives: false,
            ..living(mother, father)
        }
    }

    // The lines that say why somebody has a share of an estate, or why not.
    fn reasons(
        heap: Global,
        names: &[&str],
        family: &[Person],
        decedent: usize,
        who: usize,
    ) -> Result<String, Fail> {
        let mut text = String::new(heap);
        reason_lines::why_lines(&mut text, names, family, decedent, who)?;
        Ok(text)
    }

    // Whether all questions about a family, each by decedent and heir, are answered by these lines.
    fn all_hold(
        heap: Global,
        names: &[&str],
        family: &[Person],
        cases: &[(usize, usize, &str)],
    ) -> Result<bool, Fail> {
        for (decedent, who, lines) in cases {
            if reasons(heap, names, family, *decedent, *who)?.as_str() != *lines {
                return Ok(false);
            }
        }
        Ok(true)
    }

    // 2 and 3 are the children of 0 and 1, 4 is 2's child, 5 is 3's, and 6 is the child of 4 and 5.
    #[test]
    fn child_of_cousins(rt: HostRuntime) -> Result<(), Fail> {
        let family = [
            living(0, 0),
            living(0, 0),
            dead(1, 2),
            dead(1, 2),
            dead(3, 0),
            dead(4, 0),
            living(5, 6),
            living(1, 2),
        ];
        let cases = [
            (0, 6, "1/3 by 2, 4, 6\n1/3 by 3, 5, 6\n2/3 in all\n"),
            (0, 7, "1/3 by 7\n1/3 in all\n"),
            (0, 0, "no share: the decedent\n"),
            (0, 1, "no share: not of the family\n"),
            (0, 2, "no share: dead\n"),
            (0, 8, "no share: not there\n"),
            (8, 0, "refused 4 at 0\n"),
            (6, 0, "no share: not of the family\n"),
            (6, 7, "no share: not of the family\n"),
            (7, 6, "no share: a living forebear stands before them\n"),
            (2, 6, "1/1 by 4, 6\n1/1 in all\n"),
            (2, 7, "no share: a nearer order inherits\n"),
            (2, 0, "no share: a nearer order inherits\n"),
        ];
        assert!(rt; all_hold(rt.alloc(), &[], &family, &cases)?);
        Ok(())
    }

    // A great-grandson by two lines: one of 4, one of 4 and one of 2; and one of 4, one of 8 and one of 4.
    #[test]
    fn great_grandson(rt: HostRuntime) -> Result<(), Fail> {
        let family = [
            dead(0, 0),
            dead(1, 0),
            dead(1, 0),
            living(1, 0),
            living(1, 0),
            dead(2, 0),
            living(2, 0),
            living(2, 0),
            living(2, 0),
            dead(3, 0),
            living(3, 0),
            living(3, 0),
            living(3, 0),
            living(3, 0),
            living(3, 0),
            living(3, 0),
            living(3, 0),
            living(10, 6),
            living(0, 6),
            living(10, 0),
            living(10, 0),
            living(10, 0),
        ];
        let cases = [
            (0, 17, "1/32 by 1, 5, 17\n1/128 by 2, 9, 17\n5/128 in all\n"),
            (0, 18, "1/32 by 1, 5, 18\n1/32 in all\n"),
            (0, 3, "1/4 by 3\n1/4 in all\n"),
        ];
        assert!(rt; all_hold(rt.alloc(), &[], &family, &cases)?);
        Ok(())
    }

    // 2 is the spouse of 0 and the child of 0's dead child 1; 3 is another child.
    #[test]
    fn spouse_and_descendant(rt: HostRuntime) -> Result<(), Fail> {
        let family = [
            Person {
                spouse: 3,
                ..living(0, 0)
            },
            dead(1, 0),
            Person {
                spouse: 1,
                ..living(2, 0)
            },
            living(1, 0),
            living(4, 0),
        ];
        let cases = [
            (0, 2, "1/4 as spouse\n3/8 by 1, 2\n5/8 in all\n"),
            (0, 3, "3/8 by 3\n3/8 in all\n"),
            (0, 4, "no share: a living forebear stands before them\n"),
            (2, 0, "1/2 as spouse\n1/2 by 0\n1/1 in all\n"),
        ];
        assert!(rt; all_hold(rt.alloc(), &[], &family, &cases)?);
        Ok(())
    }

    // 0 is the mother of the mother and of the father of 5.
    #[test]
    fn both_sides(rt: HostRuntime) -> Result<(), Fail> {
        let family = [
            living(0, 0),
            dead(0, 0),
            living(0, 0),
            dead(1, 2),
            dead(1, 3),
            living(4, 5),
            living(2, 0),
        ];
        let cases = [
            (5, 0, "1/4 by 0\n1/4 by 0\n1/2 in all\n"),
            (5, 2, "1/4 by 2\n1/4 in all\n"),
            (5, 6, "1/4 by 1, 6\n1/4 in all\n"),
        ];
        assert!(rt; all_hold(rt.alloc(), &[], &family, &cases)?);
        Ok(())
    }

    // By names; who has none by number.
    #[test]
    fn by_names(rt: HostRuntime) -> Result<(), Fail> {
        let family = [dead(0, 0), dead(1, 0), living(2, 0), living(1, 0)];
        let names = ["Hans", "Anna", "Otto"];
        let cases = [
            (0, 2, "1/2 by Anna, Otto\n1/2 in all\n"),
            (0, 3, "1/2 by 3\n1/2 in all\n"),
        ];
        assert!(rt; all_hold(rt.alloc(), &names, &family, &cases)?);
        Ok(())
    }

    // Two who live, so many pairs of brother and sister one below the other, and a child who lives of the last pair.
    fn pairs(heap: Global, count: u8) -> Result<Vec<Person>, AllocError> {
        let mut family = vec![in heap; living(0, 0), living(0, 0)]?;
        for pair in 0..count {
            let mother = 2 * u32::from(pair) + 1;
            family.push(dead(mother, mother + 1))?;
            family.push(dead(mother, mother + 1))?;
        }
        let mother = 2 * u32::from(count) + 1;
        family.push(living(mother, mother + 1))?;
        Ok(family)
    }

    // How many parts come to somebody, and what they come to; none where there is no share.
    fn parts(
        heap: Global,
        family: &[Person],
        decedent: usize,
        who: usize,
    ) -> Result<Option<(usize, Fraction)>, Fail> {
        match why::why(heap, family, decedent, who)? {
            Answer::Heir(reasons) => Ok(Some((reasons.parts.len(), reasons.sum))),
            Answer::NoShare(_) => Ok(None),
        }
    }

    #[test]
    fn as_many_parts_as_may_be(rt: HostRuntime) -> Result<(), Fail> {
        let heap = rt.alloc();
        let twelve = pairs(heap, 12)?;
        let whole = Fraction { up: 1, down: 1 };
        assert_eq!(rt; parts(heap, &twelve, 0, 26)?, Some((4096, whole)));
        let thirteen = pairs(heap, 13)?;
        assert!(rt; all_hold(heap, &[], &thirteen, &[(0, 28, "refused 6 at 0\n")])?);
        Ok(())
    }

    // The table of an estate.
    fn table(heap: Global, family: &[Person], decedent: usize) -> Result<String, Fail> {
        let mut text = String::new(heap);
        estate_table::table_lines(&mut text, &[], family, decedent)?;
        Ok(text)
    }

    // All heirs with their lines; nobody; and an estate of somebody who is not there.
    #[test]
    fn tables(rt: HostRuntime) -> Result<(), Fail> {
        let heap = rt.alloc();
        let family = [
            Person {
                spouse: 3,
                ..living(0, 0)
            },
            dead(1, 0),
            Person {
                spouse: 1,
                ..living(2, 0)
            },
            living(1, 0),
            living(4, 0),
        ];
        let all =
            "2 5/8\n  1/4 as spouse\n  3/8 by 1, 2\n3 3/8\n  3/8 by 3\nall shares together are 1/1\n";
        assert_eq!(rt; table(heap, &family, 0)?.as_str(), all);
        assert_eq!(rt; table(heap, &[living(0, 0)], 0)?.as_str(), "no heirs\n");
        assert_eq!(rt; table(heap, &family, 5)?.as_str(), "refused 4 at 0\n");
        Ok(())
    }
}
