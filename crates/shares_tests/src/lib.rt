// Tests of the shares of an estate, in a crate of their own.
#![tactic(auto)]

ghost use Rattle.std.specs.Prelude.{◌+◌, ◌*◌, ◌<◌, ◌≤◌, length};

#[cfg(test)]
mod tests {
    use shares::{Part, put_part, settle};
    use std::test::Fail;
    use wire::Share;

    // A row of so many parts, all by the same number, that so many heirs have in turn. Each part counts so many times.
    #[derive(Clone, Copy)]
    struct Row {
        heirs: u32,
        times: u32,
        count: u32,
        by: u32,
    }

    // Settles an estate of such a row, beside one part of person 3 that stands first.
    fn settled(work: &mut [u32], answer: &mut [u8], lead: Option<u32>, row: Row) -> Option<u32>
        requires heirs { 0 < row.heirs }
        requires listed { row.count ≤ 4096 }
        requires room { 8324 ≤ length work.old }
        requires bytes { 85 ≤ length answer.old }
    {
        for i in 0..row.count {
            put_part(
                work,
                i,
                Part {
                    who: i % row.heirs,
                    by: row.by,
                },
            );
        }
        let first = lead.map(|by| Part { who: 3, by });
        settle(work, answer, 4, first, row.times, row.count)
    }

    // Says whether every word is 0.
    fn all_zero(work: &[u32]) -> bool {
        work.iter().all(|word| *word == 0)
    }

    // Says whether the share with an index, of so many in the answer, is somebody's, one by so many.
    fn is_share(answer: &[u8], count: u32, index: u32, who: u32, down: u64) -> bool
        requires bytes { 5 + 20 * count ≤ length answer.now }
    {
        let share = wire::read_share(&answer[0..5 + 20 * count as usize], index);
        share == Some(Share { who, up: 1, down })
    }

    #[test]
    fn a_spouse_and_three_children(rt: HostRuntime) -> Result<(), Fail> {
        let mut work = vec![in rt.alloc(); 0u32; 8324]?;
        let mut answer = [7u8; 86];
        let row = Row {
            heirs: 3,
            times: 3,
            count: 3,
            by: 12,
        };
        assert_eq!(rt; settled(&mut work, &mut answer, Some(4), row), Some(4));
        for who in 0..4 {
            assert!(rt; is_share(&answer, 4, who, who, 4));
        }
        assert!(rt; all_zero(&work) && answer[85] == 7);
        Ok(())
    }

    #[test]
    fn as_many_parts_as_there_may_be(rt: HostRuntime) -> Result<(), Fail> {
        let mut work = vec![in rt.alloc(); 0u32; 8324]?;
        let mut answer = [7u8; 85];
        let row = Row {
            heirs: 1,
            times: 1,
            count: 4096,
            by: 4096,
        };
        assert_eq!(rt; settled(&mut work, &mut answer, Some(4096), row), None);
        assert!(rt; answer[0] == 7 && all_zero(&work));
        assert_eq!(rt; settled(&mut work, &mut answer, None, row), Some(1));
        assert!(rt; is_share(&answer, 1, 0, 0, 1) && all_zero(&work));
        Ok(())
    }

    #[test]
    fn the_least_number_of_all_parts(rt: HostRuntime) -> Result<(), Fail> {
        let mut work = vec![in rt.alloc(); 0u32; 8324]?;
        let mut answer = [7u8; 85];
        let mut row = Row {
            heirs: 1,
            times: 1,
            count: 1,
            by: 65535,
        };
        assert_eq!(rt; settled(&mut work, &mut answer, Some(65537), row), Some(2));
        row.by = 65536;
        assert_eq!(rt; settled(&mut work, &mut answer, Some(65537), row), None);
        row.by = 0;
        assert_eq!(rt; settled(&mut work, &mut answer, None, row), None);
        assert!(rt; is_share(&answer, 2, 0, 0, 65535) && is_share(&answer, 2, 1, 3, 65537));
        Ok(())
    }
}
