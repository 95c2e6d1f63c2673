// Who somebody's children are, as links in lent words. Each person has four: the first child, the last child, the next child of the mother behind this one, and
// the next of the father; each is 0 where there is nobody, else one more than a number. A person may be the mother of one child and the father of another, so which
// link leads on is asked of each child again.
#![tactic(auto)]

ghost use Rattle.std.specs.Prelude.{◌≡◌, ◌+◌, ◌*◌, ◌<◌, ◌≤◌, length, slice_index, slice_set};
ghost use Rattle.children.specs.Links.{next_place, end_place, appended};

// The words of one person, and the places of the links in them.
pub const ROW: usize = 4;

const LAST: usize = 1;

const BY_MOTHER: usize = 2;

const BY_FATHER: usize = 3;

// The link to the first child of a parent.
pub fn first(links: &[u32], parent: u32) -> u32
    requires room { 4 * parent + 4 ≤ length links.now }
    ensures value { result ≡ slice_index links.now (4 * parent) }
{
    links[ROW * parent as usize]
}

// The link to the last child of a parent.
pub fn last(links: &[u32], parent: u32) -> u32
    requires room { 4 * parent + 4 ≤ length links.now }
    ensures value { result ≡ slice_index links.now (4 * parent + 1) }
{
    let at = ROW * parent as usize;
    links[at + LAST]
}

// Where a child's link to the next child of its mother, or of its father, stands.
fn next_place(child: u32, by_mother: bool) -> usize
    ensures value { result ≡ next_place child by_mother }
{
    let side = if by_mother { BY_MOTHER } else { BY_FATHER };
    ROW * child as usize + side
}

// The link from a child to the next child of its mother, or of its father.
pub fn next(links: &[u32], child: u32, by_mother: bool) -> u32
    requires room { 4 * child + 4 ≤ length links.now }
    ensures value { result ≡ slice_index links.now (next_place child by_mother) }
{
    links[next_place(child, by_mother)]
}

// Where the link to a child that becomes the last of a parent stands: the parent's first, or the one behind the last child so far.
fn end_place(links: &[u32], parent: u32, by_mother: bool) -> usize
    requires room { 4 * parent + 4 ≤ length links.now }
    ensures value { result ≡ end_place links.now parent by_mother }
{
    let last = last(links, parent);
    if last == 0 {
        ROW * parent as usize
    } else {
        next_place(last - 1, by_mother)
    }
}

// Sets a word that may lie beyond the others; there nothing is written.
fn set_word(words: &mut [u32], place: usize, value: u32)
    ensures left { words.new ≡ slice_set words.old place value }
{
    if place < words.len() {
        words[place] = value;
    }
}

// Files a child as the last of a parent. `by_mother` says whether the parent is the mother of the last child so far, else the father. Words that are no links are safe:
// a link that would lie beyond them is not written.
pub fn append(links: &mut [u32], parent: u32, child: u32, by_mother: bool)
    requires room { 4 * parent + 4 ≤ length links.old }
    requires number { child < 4294967295 }
    ensures left { links.new ≡ appended links.old parent child by_mother }
{
    let end = end_place(links, parent, by_mother);
    set_word(links, end, child + 1);
    links[ROW * parent as usize + LAST] = child + 1;
}

#[cfg(test)]
mod tests {
    use super::*;
    use std::process::Abort;

    // Files a child under a parent; parents, and everybody's mother in `mothers`, are 0 or one more than a number.
    fn file_under(rt: &impl Abort, links: &mut [u32], mothers: &[u32; 6], parent: u32, child: u32) {
        if parent == 0 {
            return;
        }
        assert!(rt; links.len() == 24 && parent <= 6 && child < 6);
        let last = last(links, parent - 1);
        assert!(rt; last <= 6);
        let of_last = last != 0 && mothers[last as usize - 1] == parent;
        append(links, parent - 1, child, of_last);
    }

    fn file_all(rt: &impl Abort, links: &mut [u32], mothers: &[u32; 6], fathers: &[u32; 6]) {
        for (child, (mother, father)) in (0..6).zip(mothers.iter().zip(fathers)) {
            file_under(rt, links, mothers, *mother, child);
            file_under(rt, links, mothers, *father, child);
        }
    }

    // Whether these are the children of a parent that are met along the links, each as one more than a number.
    fn check_walk(
        rt: &impl Abort,
        links: &[u32],
        mothers: &[u32; 6],
        parent: u32,
        children: [u32; 6],
    ) {
        assert!(rt; links.len() == 24 && parent < 6);
        let mut met = [0; 6];
        let mut link = first(links, parent);
        for place in &mut met {
            if link == 0 {
                break;
            }
            let child = link - 1;
            assert!(rt; child < 6);
            *place = link;
            link = next(links, child, mothers[child as usize] == parent + 1);
        }
        assert_eq!(rt; met, children);
    }

    #[test]
    fn several_children(rt: HostRuntime) {
        let mothers = [0, 1, 1, 0, 1, 0];
        let mut links = [0; 24];
        file_all(&rt, &mut links, &mothers, &[0, 0, 0, 0, 4, 4]);
        check_walk(&rt, &links, &mothers, 0, [2, 3, 5, 0, 0, 0]);
        check_walk(&rt, &links, &mothers, 3, [5, 6, 0, 0, 0, 0]);
        check_walk(&rt, &links, &mothers, 1, [0; 6]);
        assert_eq!(rt; last(&links, 0), 5);
    }

    // 0 and 1 are the mother of one child of theirs and the father of the other.
    #[test]
    fn mother_and_father(rt: HostRuntime) {
        let mothers = [0, 0, 1, 2, 1, 0];
        let mut links = [0; 24];
        file_all(&rt, &mut links, &mothers, &[0, 0, 2, 1, 0, 2]);
        check_walk(&rt, &links, &mothers, 0, [3, 4, 5, 0, 0, 0]);
        check_walk(&rt, &links, &mothers, 1, [3, 4, 6, 0, 0, 0]);
        assert_eq!(rt; next(&links, 3, true), 6);
        assert_eq!(rt; next(&links, 3, false), 5);
    }

    // 1 and 2 are children of 0, 3 and 4 theirs, and 5 is the child of both; the links lie in the middle of other words.
    #[test]
    fn child_of_cousins(rt: HostRuntime) {
        let mothers = [0, 1, 1, 2, 3, 4];
        let mut memory = [7; 30];
        rows::clear(&mut memory, 2, 24);
        let links = &mut memory[2..26];
        file_all(&rt, links, &mothers, &[0, 0, 0, 0, 0, 5]);
        check_walk(&rt, links, &mothers, 0, [2, 3, 0, 0, 0, 0]);
        check_walk(&rt, links, &mothers, 1, [4, 0, 0, 0, 0, 0]);
        check_walk(&rt, links, &mothers, 3, [6, 0, 0, 0, 0, 0]);
        check_walk(&rt, links, &mothers, 4, [6, 0, 0, 0, 0, 0]);
        assert_eq!(rt; [memory[1], memory[26]], [7, 7]);
    }

    #[test]
    fn words_that_are_no_links(rt: HostRuntime) {
        let mut links = [9, 4294967295, 9, 9, 9, 1, 9, 9];
        append(&mut links, 0, 1, true);
        assert_eq!(rt; links, [9, 2, 9, 9, 9, 1, 9, 9]);
        append(&mut links, 1, 4294967294, false);
        assert_eq!(rt; links, [9, 2, 9, 4294967295, 9, 4294967295, 9, 9]);
    }
}
