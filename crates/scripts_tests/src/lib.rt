// What callers of the scripts can conclude, and examples that are run.
#![tactic(auto)]

ghost use Rattle.std.specs.Prelude.{◌≡◌, IfOk};
ghost use Rattle.scripts.specs.Reads.{update_of};

use scripts::error::ReadError;
use scripts::printing::print;
use scripts::reading::read;
use scripts::script::Script;
use std::alloc::Global;

// A script that is printed and read again is the same update.
pub fn again(heap: Global, script: &Script) -> Result<Script, ReadError>
    ensures { IfOk result (λ s. update_of s ≡ update_of script.now) }
{
    let text = print(heap, script)?;
    read(heap, text.as_slice())
}

#[cfg(test)]
mod tests {
    use scripts::dots::add_body;
    use scripts::error::{Mistake, ReadError, ScriptError};
    use scripts::found::Spelled;
    use scripts::printing::print;
    use scripts::reader::Reader;
    use scripts::reading::read;
    use std::alloc::Global;
    use std::test::Fail;

    // The script as it is printed, once it is read.
    fn tidied(heap: Global, src: &[u8]) -> Result<Vec<u8>, ReadError> {
        let script = read(heap, src)?;
        let text = print(heap, &script)?;
        Ok(text)
    }

    // What is wrong with a script, and on which line.
    fn mistake(heap: Global, src: &[u8]) -> Option<(usize, Mistake)> {
        match read(heap, src) {
            Err(ReadError::Wrong(error)) => Some((error.line, error.kind)),
            _ => None,
        }
    }

    #[test]
    fn changes_are_put_in_order(rt: HostRuntime) -> Result<(), Fail> {
        let text = tidied(
            rt.alloc(),
            b"# limits\n\nput 12\n..5 MPa\n\nat 20 C\n.\nremove 7\n",
        )?;
        assert!(rt; text.as_slice() == b"remove 7\nput 12\n..5 MPa\n\nat 20 C\n.\n".as_slice());
        Ok(())
    }

    #[test]
    fn empty_bodies(rt: HostRuntime) -> Result<(), Fail> {
        let text = tidied(rt.alloc(), b"put 2\n\n.\nput 1\n.")?;
        assert!(rt; text.as_slice() == b"put 1\n\n.\nput 2\n\n.\n".as_slice());
        Ok(())
    }

    #[test]
    fn what_is_wrong(rt: HostRuntime) -> Result<(), Fail> {
        let heap = rt.alloc();
        assert_eq!(rt;
            mistake(heap, b"put 1\n.\nremove 01\n"),
            Some((3, Mistake::NumberAgain))
        );
        assert_eq!(rt;
            mistake(heap, b"remove 1\nput 2\nabc\n"),
            Some((2, Mistake::NoEnd))
        );
        assert_eq!(rt;
            mistake(heap, b"put 2\na\n.b\n.\n"),
            Some((3, Mistake::SingleDot))
        );
        assert_eq!(rt;
            mistake(heap, b"remove 12345678901\n"),
            Some((1, Mistake::BadNumber))
        );
        assert_eq!(rt; mistake(heap, b"\nmove 1\n"), Some((2, Mistake::NoChange)));
        Ok(())
    }

    #[test]
    fn an_error_names_its_line(rt: HostRuntime) -> Result<(), Fail> {
        let error = ScriptError {
            line: 3,
            kind: Mistake::NumberAgain,
        };
        let words = error.to_string(rt.alloc())?;
        assert!(rt; words.as_str() == "line 3: this number has a change already");
        Ok(())
    }

    #[test]
    fn one_change_after_the_other(rt: HostRuntime) -> Result<(), Fail> {
        let mut reader = Reader::new(b"put 12\n..5\n.\n#\nremove 7\n");
        let first = reader.next()?.ok_or("no change")?;
        assert!(rt; first.line == 1 && first.number == 12);
        let Spelled::Body(text) = first.change else {
            assert!(rt; false);
            return Ok(());
        };
        let mut body = Vec::new(rt.alloc());
        add_body(&mut body, text)?;
        assert!(rt; body.as_slice() == b".5".as_slice());
        let second = reader.next()?.ok_or("no change")?;
        assert!(rt; second.line == 5 && second.number == 7);
        assert!(rt; reader.next()?.is_none());
        Ok(())
    }
}
