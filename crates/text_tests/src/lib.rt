// Tests of families as text and of the estates that are printed of them, in a crate of their own.
#![tactic(auto)]

#[cfg(test)]
mod tests {
    use std::alloc::{AllocError, Global};
    use std::test::Fail;
    use text::{Failure, Fault, Reason};

    // A text, and the line that is refused with the reason.
    #[derive(Clone, Copy)]
    struct Bad<'a> {
        text: &'a [u8],
        line: usize,
        reason: Reason,
    }

    fn is_refused(heap: Global, bad: Bad) -> bool {
        let Bad { text, line, reason } = bad;
        text::read(heap, text).err() == Some(Failure::Line(Fault { line, reason }))
    }

    fn all_refused(heap: Global, table: &[Bad]) -> bool {
        table.iter().all(|bad| is_refused(heap, *bad))
    }

    #[test]
    fn unreadable_lines(rt: HostRuntime) -> Result<(), Fail> {
        let reason = Reason::Unreadable;
        let table = [
            Bad {
                text: b"\n",
                line: 0,
                reason,
            },
            Bad {
                text: b"Anna\n\nBerta\n",
                line: 1,
                reason,
            },
            Bad {
                text: b"Anna\n, of Anna\n",
                line: 1,
                reason,
            },
            Bad {
                text: b"Anna\nBerta, of Anna and\n",
                line: 1,
                reason,
            },
            Bad {
                text: b"Anna\nBerta, of Anna and \n",
                line: 1,
                reason,
            },
            Bad {
                text: b"Anna\nBerta, of and Anna\n",
                line: 1,
                reason,
            },
            Bad {
                text: b"Anna\nBerta, of\n",
                line: 1,
                reason,
            },
            Bad {
                text: b"Anna\nBerta, of unknown\n",
                line: 1,
                reason,
            },
            Bad {
                text: b"Anna\nBerta, of unknown and unknown\n",
                line: 1,
                reason,
            },
            Bad {
                text: b"Anna,\n",
                line: 0,
                reason,
            },
            Bad {
                text: b"Anna, \n",
                line: 0,
                reason,
            },
            Bad {
                text: b"Anna, died,\n",
                line: 0,
                reason,
            },
            Bad {
                text: b"Anna, died, died\n",
                line: 0,
                reason,
            },
            Bad {
                text: b"Anna\nBerta, died, of Anna\n",
                line: 1,
                reason,
            },
            Bad {
                text: b"Anna\nBerta, spouse of Anna, died\n",
                line: 1,
                reason,
            },
        ];
        assert!(rt; all_refused(rt.alloc(), &table));
        Ok(())
    }

    #[test]
    fn unreadable_names(rt: HostRuntime) -> Result<(), Fail> {
        let reason = Reason::Unreadable;
        let table = [
            Bad {
                text: b"Anna\r\nBerta\r\n",
                line: 0,
                reason,
            },
            Bad {
                text: b"Anna\nBer\xffta\n",
                line: 1,
                reason,
            },
            Bad {
                text: b"Anna\nBer\xc3\n",
                line: 1,
                reason,
            },
            Bad {
                text: b" Anna\n",
                line: 0,
                reason,
            },
            Bad {
                text: b"Anna \n",
                line: 0,
                reason,
            },
            Bad {
                text: b"Anna1\n",
                line: 0,
                reason,
            },
            Bad {
                text: b"Anna and Berta\n",
                line: 0,
                reason,
            },
            Bad {
                text: b"Anna and\n",
                line: 0,
                reason,
            },
            Bad {
                text: b"and Anna\n",
                line: 0,
                reason,
            },
            Bad {
                text: b"and\n",
                line: 0,
                reason,
            },
            Bad {
                text: b"unknown\n",
                line: 0,
                reason,
            },
            Bad {
                text: b"aaaaaaaaaaaaaaaaaaaaaaaaaaaaaaaaaaaaaaaaaaaaaaaaaaaaaaaaaaaaaaaaa\n",
                line: 0,
                reason,
            },
        ];
        assert!(rt; all_refused(rt.alloc(), &table));
        Ok(())
    }

    #[test]
    fn refused_families(rt: HostRuntime) -> Result<(), Fail> {
        let table = [
            Bad {
                text: b"Anna\nBerta",
                line: 1,
                reason: Reason::NoNewline,
            },
            Bad {
                text: b"Anna\nBerta\nAnna\n",
                line: 2,
                reason: Reason::NameTwice,
            },
            Bad {
                text: b"Anna, of Berta\n",
                line: 0,
                reason: Reason::ParentNotThere,
            },
            Bad {
                text: b"Anna\nBerta, of Anna and Carl\n",
                line: 1,
                reason: Reason::ParentNotThere,
            },
            Bad {
                text: b"Anna, of Berta\nBerta\n",
                line: 0,
                reason: Reason::LaterParent,
            },
            Bad {
                text: b"Anna\nBerta, of Berta\n",
                line: 1,
                reason: Reason::OwnParent,
            },
            Bad {
                text: b"Anna\nBerta, of Anna and Anna\n",
                line: 1,
                reason: Reason::SameParents,
            },
            Bad {
                text: b"Anna\nBerta, spouse of Carl\n",
                line: 1,
                reason: Reason::SpouseNotThere,
            },
            Bad {
                text: b"Anna, spouse of Anna\n",
                line: 0,
                reason: Reason::OwnSpouse,
            },
            Bad {
                text: b"Anna\nBerta, spouse of Anna\nCarl, spouse of Anna\n",
                line: 2,
                reason: Reason::SecondSpouse,
            },
            Bad {
                text: b"Anna, spouse of Berta\nBerta, spouse of Carl\nCarl\n",
                line: 0,
                reason: Reason::SecondSpouse,
            },
        ];
        assert!(rt; all_refused(rt.alloc(), &table));
        Ok(())
    }

    // So many lines, each of two letters.
    fn many_lines(heap: Global, count: u8) -> Result<Vec<u8>, AllocError> {
        let mut text = Vec::new(heap);
        for i in 0..count {
            text.extend_from_slice(&[b'a' + i % 26, b'a' + i / 26, b'\n'])?;
        }
        Ok(text)
    }

    #[test]
    fn persons_beyond_the_limit(rt: HostRuntime) -> Result<(), Fail> {
        let most = many_lines(rt.alloc(), 64)?;
        assert!(rt; text::read(rt.alloc(), most.as_slice()).is_ok());
        let more = many_lines(rt.alloc(), 65)?;
        let bad = Bad {
            text: more.as_slice(),
            line: 64,
            reason: Reason::TooMany,
        };
        assert!(rt; is_refused(rt.alloc(), bad));
        Ok(())
    }

    // A text, and how its family is printed.
    #[derive(Clone, Copy)]
    struct Good<'a> {
        text: &'a str,
        printed: &'a str,
    }

    fn is_printed(heap: Global, good: Good) -> bool {
        let Ok(family) = text::read(heap, good.text.as_bytes()) else {
            return false;
        };
        text::print(heap, &family).is_ok_and(|lines| lines.as_str() == good.printed)
    }

    fn all_printed(heap: Global, table: &[Good]) -> bool {
        table.iter().all(|good| is_printed(heap, *good))
    }

    #[test]
    fn families_are_printed(rt: HostRuntime) -> Result<(), Fail> {
        let table = [
            Good {
                text: "",
                printed: "",
            },
            Good {
                text: "Anna\nBerta, of Anna, died\nCarl, of unknown and Berta\nDora, of Anna and Carl\n",
                printed: "Anna\nBerta, of Anna, died\nCarl, of unknown and Berta\nDora, of Anna and Carl\n",
            },
            Good {
                text: "Anna, spouse of Berta\nBerta, died\n",
                printed: "Anna, spouse of Berta\nBerta, died, spouse of Anna\n",
            },
            Good {
                text: "Jürgen\nÓlafur-Þór van der Berg, died, spouse of Jürgen\n",
                printed: "Jürgen, spouse of Ólafur-Þór van der Berg\nÓlafur-Þór van der Berg, died, spouse of Jürgen\n",
            },
            Good {
                text: "aaaaaaaaaaaaaaaaaaaaaaaaaaaaaaaaaaaaaaaaaaaaaaaaaaaaaaaaaaaaaaaa\n",
                printed: "aaaaaaaaaaaaaaaaaaaaaaaaaaaaaaaaaaaaaaaaaaaaaaaaaaaaaaaaaaaaaaaa\n",
            },
            Good {
                text: "died\nof\nandy\nspouse of Dan\n",
                printed: "died\nof\nandy\nspouse of Dan\n",
            },
        ];
        assert!(rt; all_printed(rt.alloc(), &table));
        Ok(())
    }

    // A text, a name, and the lines of the estate.
    #[derive(Clone, Copy)]
    struct Estate<'a> {
        text: &'a str,
        name: &'a str,
        lines: &'a str,
    }

    fn is_divided(heap: Global, estate: Estate) -> bool {
        clerk::estate(heap, estate.text.as_bytes(), estate.name).is_ok_and(|lines| lines.as_str()
            == estate.lines)
    }

    fn all_divided(heap: Global, table: &[Estate]) -> bool {
        table.iter().all(|estate| is_divided(heap, *estate))
    }

    #[test]
    fn estates_are_divided(rt: HostRuntime) -> Result<(), Fail> {
        let parents = "Anna, spouse of Bruno\nBruno\nCarl, of Anna and Bruno\n";
        let cousins =
            "Anna\nBruno, of Anna, died\nClara, of Anna, died\nDora, of Bruno, died\nEmil, of Clara, died\nFrieda, of Dora and Emil\nGustav, of Anna\n";
        let table = [
            Estate {
                text: "Anna\n",
                name: "Anna",
                lines: "no heirs\n",
            },
            Estate {
                text: parents,
                name: "Carl",
                lines: "Anna 1/2\nBruno 1/2\n",
            },
            Estate {
                text: parents,
                name: "Anna",
                lines: "Bruno 1/4\nCarl 3/4\n",
            },
            Estate {
                text: cousins,
                name: "Anna",
                lines: "Frieda 2/3\nGustav 1/3\n",
            },
        ];
        assert!(rt; all_divided(rt.alloc(), &table));
        Ok(())
    }

    #[test]
    fn nobody_has_the_name(rt: HostRuntime) {
        let refused = clerk::estate(rt.alloc(), b"Anna\n", "Berta").err();
        assert_eq!(rt; refused, Some(clerk::Failure::NotThere));
    }

    // The line that is shown with a message.
    #[test]
    fn lines_by_number(rt: HostRuntime) {
        assert_eq!(rt; text::line_at(b"Anna\nBerta", 0), b"Anna".as_slice());
        assert_eq!(rt; text::line_at(b"Anna\nBerta", 1), b"Berta".as_slice());
        assert_eq!(rt; text::line_at(b"Anna\nBerta", 2), b"".as_slice());
    }
}
