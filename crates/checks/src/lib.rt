//! Tests of the library's calls that no text can reach: load refused before any line, strangers'
//! tickets, a close that hands its ticket back, and a verdict that an edit puts back.
#![tactic(auto)]

#[cfg(test)]
mod tests {
    use bench::bench::Bench;
    use bench::verdict::Verdict;
    use line::Line;
    use line::limits::SHEET;
    use std::test::Fail;
    use store::fault::Layer;
    use store::load::load;

    // The number, line, place and layer of load's refusal, if it is refused.
    fn refusal(
        bench: &mut Bench,
        text: &[u8],
        sheet: &mut [u32],
    ) -> Option<(u8, usize, usize, Layer)> {
        let fault = load(bench, text, sheet).err()?;
        Some((fault.refusal.number(), fault.line, fault.place, fault.layer))
    }

    #[test]
    fn load_before_any_line(rt: HostRuntime) -> Result<(), Fail> {
        let heap = rt.alloc();
        let mut bench = Bench::new(1, heap)?;
        let mut sheet = vec![in heap; 7; SHEET]?;
        let mut short = vec![in heap; 7; 10]?;
        let text = b"sporadic 7 2 10 10\nend 1 0\n";
        assert_eq!(rt;
            refusal(&mut bench, text, &mut short),
            Some((2, 0, 0, Layer::Table))
        );
        assert_eq!(rt; refusal(&mut bench, text, &mut sheet), None);
        assert_eq!(rt;
            refusal(&mut bench, text, &mut sheet),
            Some((14, 0, 0, Layer::Table))
        );
        let draft = bench.open(20, 0)?;
        let answer = refusal(&mut bench, text, &mut sheet);
        bench.abandon(draft);
        assert_eq!(rt; answer, Some((12, 0, 0, Layer::Table)));
        assert_eq!(rt; bench.table().count(), 1);
        Ok(())
    }

    #[test]
    fn refused_load_changes_nothing(rt: HostRuntime) -> Result<(), Fail> {
        let heap = rt.alloc();
        let mut bench = Bench::new(1, heap)?;
        let mut sheet = vec![in heap; 7; SHEET]?;
        let text = b"angular 20\nmode 5 20\nlink 0 0 30\nsporadic 7 2 10 10\nend 2 1\n";
        assert_eq!(rt;
            refusal(&mut bench, text, &mut sheet),
            Some((6, 5, 52, Layer::Text))
        );
        assert_eq!(rt; bench.table().count(), 0);
        assert_eq!(rt; sheet.first().copied(), Some(7));
        Ok(())
    }

    // Whether the bench refuses a draft of task 21; one that it gives is abandoned.
    fn opening_refused(bench: &mut Bench) -> bool {
        match bench.open(21, 0) {
            Ok(draft) => {
                bench.abandon(draft);
                false
            }
            Err(_) => true,
        }
    }

    #[test]
    fn tickets(rt: HostRuntime) -> Result<(), Fail> {
        let heap = rt.alloc();
        let mut first = Bench::new(1, heap)?;
        let mut other = Bench::new(2, heap)?;
        let mut sheet = vec![in heap; 0; SHEET]?;
        let draft = first.open(20, 0)?;
        let stranger = other.mode(&draft, 5, 20);
        let (draft, whole) = match first.close(draft, &mut sheet) {
            Ok(()) => return Err(Fail::new("a task without a mode was closed")),
            Err((draft, e)) => (draft, e.number()),
        };
        other.abandon(draft);
        assert_eq!(rt; stranger.err().map(|e| e.number()), Some(13));
        assert_eq!(rt; whole, 20);
        assert!(rt; opening_refused(&mut first));
        Ok(())
    }

    #[test]
    fn edit_puts_verdict_back(rt: HostRuntime) -> Result<(), Fail> {
        let heap = rt.alloc();
        let mut bench = Bench::new(1, heap)?;
        bench.put(7, 0, 2, 10, 10)?;
        assert_eq!(rt; bench.judge(), Verdict::Fits);
        assert_eq!(rt; bench.bound(7, 0)?, 2);
        bench.put(8, 1, 9, 100, 9)?;
        assert_eq!(rt; bench.verdict(), None);
        assert_eq!(rt; bench.bound(7, 0)?, 0);
        assert_eq!(rt; bench.judge(), Verdict::Over { task: 8, mode: 0 });
        Ok(())
    }
}
