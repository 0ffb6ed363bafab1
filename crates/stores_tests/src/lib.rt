// What callers of the stores can conclude, and examples that are run.
#![tactic(auto)]

ghost use Rattle.std.specs.Prelude.{◌≡◌, IfOk};
ghost use Rattle.stores.specs.Overlays.{OverlayFits};

use faults::fault::Fault;
use stores::flat::Flat;
use stores::overlay::Overlay;
use stores::store::Store;

// A memory comes back out of a store as it went in.
pub fn memory_back(memory: Vec<u8>, length: usize) -> Result<Vec<u8>, Fault>
    ensures { IfOk result (λ back. back ≡ memory) }
{
    Flat::check(&memory, length)?;
    Ok(Flat::new(memory, length).into_memory())
}

// What is done to an overlay leaves the store below as it was.
pub fn below_back<S: Store>(below: S, more: &[u8], n: usize) -> S
    requires { OverlayFits (S.Store.meaning below) }
    ensures { result ≡ below }
{
    let mut top = Overlay::new(below);
    let _ = top.append(more);
    let _ = top.cut(n);
    top.into_below()
}

#[cfg(test)]
mod tests {
    use faults::fault::Fault;
    use faults::reason::Reason;
    use std::process::Abort;
    use std::test::Fail;
    use stores::flat::Flat;
    use stores::overlay::{Overlay, TAIL_SIZE};
    use stores::store::{LONGEST, Store};

    fn refused(rt: &impl Abort, answer: Result<(), Fault>, reason: Reason) {
        assert_eq!(rt; answer, Err(Fault::refused(reason, 0)));
    }

    #[test]
    fn flat_to_its_edges(rt: HostRuntime) -> Result<(), Fail> {
        let memory = b"hello world".to_vec(rt.alloc())?;
        Flat::check(&memory, 5)?;
        let mut flat = Flat::new(memory, 5);
        refused(&rt, flat.append(b", all!!"), Reason::NoSpace);
        flat.append(b", all!")?;
        assert!(rt; flat.len() == 11 && flat.space() == 0);
        flat.append(b"")?;
        assert_eq!(rt; flat.byte_at(10), Some(b'!'));
        assert_eq!(rt; flat.byte_at(11), None);
        refused(&rt, flat.cut(12), Reason::CutPastEnd);
        flat.cut(11)?;
        flat.cut(0)?;
        assert!(rt; flat.len() == 0 && flat.space() == 11);
        assert_eq!(rt; flat.byte_at(0), None);
        flat.append(b"me")?;
        assert!(rt; flat.into_memory().as_slice() == b"mello, all!".as_slice());
        Ok(())
    }

    #[test]
    fn overlay_over_overlay(rt: HostRuntime) -> Result<(), Fail> {
        let memory = b"hello world".to_vec(rt.alloc())?;
        Flat::check(&memory, 5)?;
        let flat = Flat::new(memory, 5);
        Overlay::check(&flat)?;
        let mut middle = Overlay::new(flat);
        middle.append(b", all")?;
        Overlay::check(&middle)?;
        let mut top = Overlay::new(middle);
        assert!(rt; top.len() == 10 && top.space() == TAIL_SIZE);
        top.append(b" of you")?;
        let mut seen = [b'.'; 10];
        assert!(rt; top.read(3, &mut seen) == 10);
        assert!(rt; &seen == b"lo, all of");
        // into the part below: the tail is emptied
        top.cut(7)?;
        assert!(rt; top.len() == 7 && top.space() == TAIL_SIZE);
        top.append(b"you")?;
        assert!(rt; top.read(4, &mut seen) == 6);
        assert!(rt; &seen == b"o, youl of");
        let middle = top.into_below();
        assert!(rt; middle.len() == 10 && middle.space() == TAIL_SIZE - 5);
        assert!(rt; middle.into_below().into_memory().as_slice() == b"hello world".as_slice());
        Ok(())
    }

    #[test]
    fn overlay_to_its_edges(rt: HostRuntime) -> Result<(), Fail> {
        let memory = Vec::new(rt.alloc());
        Flat::check(&memory, 0)?;
        let flat = Flat::new(memory, 0);
        Overlay::check(&flat)?;
        let mut top = Overlay::new(flat);
        assert_eq!(rt; top.byte_at(0), None);
        top.append(&[7; TAIL_SIZE - 1])?;
        refused(&rt, top.append(b"ab"), Reason::NoSpace);
        top.append(b"a")?;
        assert!(rt; top.len() == TAIL_SIZE && top.space() == 0);
        refused(&rt, top.append(b"b"), Reason::NoSpace);
        assert_eq!(rt; top.byte_at(TAIL_SIZE - 1), Some(b'a'));
        assert_eq!(rt; top.byte_at(TAIL_SIZE), None);
        refused(&rt, top.cut(TAIL_SIZE + 1), Reason::CutPastEnd);
        top.cut(1)?;
        assert!(rt; top.space() == TAIL_SIZE - 1);
        Ok(())
    }

    #[test]
    fn checks_at_the_bounds(rt: HostRuntime) -> Result<(), Fail> {
        let short = b"abc".to_vec(rt.alloc())?;
        Flat::check(&short, 3)?;
        refused(&rt, Flat::check(&short, 4), Reason::StoreLength);
        let memory = vec![in rt.alloc(); 0u8; LONGEST + 1]?;
        refused(&rt, Flat::check(&memory, LONGEST + 1), Reason::StoreLength);
        Flat::check(&memory, LONGEST)?;
        let mut flat = Flat::new(memory, LONGEST);
        Overlay::check(&flat)?;
        // appends take a store past the bound under which it is made
        flat.append(b"a")?;
        assert!(rt; flat.len() == LONGEST + 1);
        refused(&rt, Overlay::check(&flat), Reason::StoreLength);
        Ok(())
    }

    #[test]
    fn windows_at_the_edges(rt: HostRuntime) -> Result<(), Fail> {
        let memory = b"hello world".to_vec(rt.alloc())?;
        Flat::check(&memory, 5)?;
        let flat = Flat::new(memory, 5);
        let mut seen = [b'.'; 4];
        assert!(rt; flat.read(5, &mut seen) == 0);
        assert!(rt; flat.read(9, &mut seen) == 0);
        assert!(rt; flat.read(0, &mut []) == 0);
        assert!(rt; &seen == b"....");
        assert!(rt; flat.read(2, &mut seen) == 3);
        assert!(rt; &seen == b"llo.");
        Overlay::check(&flat)?;
        let mut top = Overlay::new(flat);
        top.append(b"!?")?;
        assert!(rt; top.read(7, &mut seen) == 0);
        assert!(rt; top.read(6, &mut seen) == 1);
        assert!(rt; top.read(5, &mut []) == 0);
        assert!(rt; &seen == b"?lo.");
        Ok(())
    }
}
