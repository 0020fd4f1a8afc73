use ft_connection::*;
use std::alloc::Global;
use std::test::Fail;

fn played(alloc: Global, bytes: &[u8]) -> Result<Played, ConnError> {
    if bytes.len() > 1_048_576 {
        return Err(ConnError::NoMemory);
    }
    play(alloc, bytes)
}

#[test]
fn a_window_of_sixteen_jobs(rt: HostRuntime) -> Result<(), Fail> {
    let mut sender = Sender::new(vec![in rt.alloc(); 7u32; 20]?);
    for number in 0..16 {
        let frame = sender.send(Path::One)?;
        assert_eq!(rt; frame, Frame { number, job: 7 });
    }
    // at the end of the window the path goes back; the other path begins anew
    let mut numbers = [0; 3];
    numbers[0] = sender.send(Path::One)?.number;
    numbers[1] = sender.send(Path::Two)?.number;
    numbers[2] = sender.send(Path::Two)?.number;
    assert_eq!(rt; numbers, [0, 0, 1]);
    sender.down(Path::Two);
    assert_eq!(rt; sender.send(Path::Two), Err(SendFault::Down));
    sender.up(Path::Two);
    assert_eq!(rt; sender.send(Path::Two)?.number, 0);
    Ok(())
}

#[test]
fn frames_new_old_and_ahead(rt: HostRuntime) {
    let mut receiver = Receiver::new();
    // the number of the frame, what the receiver makes of it, and how many jobs it has handed over then
    let rows = [
        (1, Taken::Ahead, 0),
        (0, Taken::New, 1),
        (0, Taken::Old, 1),
        (1, Taken::New, 2),
        (19_999, Taken::Ahead, 2),
    ];
    for (number, taken, handed) in rows {
        if number < 20_000 {
            assert_eq!(rt; receiver.receive(&Frame { number, job: 5 }), taken);
        }
        assert_eq!(rt; receiver.handed(), handed);
    }
}

#[test]
fn files_that_are_played(rt: HostRuntime) -> Result<(), Fail> {
    // the file, its text
    let rows: [(&[u8], &[u8]); 8] = [
        (
            b"JOB 0000000A\nJOB 0000000B\nSEND 1\nSEND 1\nDELIVER 1 1\nDELIVER 1 0\nDELIVER 1 0\nDOWN 1\nSEND 2\nSEND 2\nDELIVER 2 1\nACK 2 0\nEND\n",
            b"TAKE 0 0000000A\nTAKE 1 0000000B\nDONE 2 2\n",
        ),
        (b"END\n# nothing more\n  \n", b"DONE 0 0\n"),
        (
            b"JOB 000000ff\r\n # a remark\n\nSEND  2 \nDELIVER 2 000\nACK 2 00\nSEND 2\nEND",
            b"TAKE 0 000000FF\nIDLE 2\nDONE 1 1\n",
        ),
        (
            b"DOWN 2\nSEND 2\nUP 2\nSEND 2\nEND\n",
            b"REFUSED 2\nIDLE 2\nDONE 0 0\n",
        ),
        // the cursor goes back where the path comes up
        (
            b"JOB 00000001\nJOB 00000002\nSEND 1\nSEND 1\nDOWN 1\nUP 1\nSEND 1\nDELIVER 1 2\nDELIVER 1 1\nEND\n",
            b"TAKE 0 00000001\nTAKE 1 00000002\nDONE 2 0\n",
        ),
        // a frame that is ahead is dropped
        (
            b"JOB 00000001\nJOB 00000002\nSEND 1\nSEND 1\nDELIVER 1 1\nACK 1 0\nEND\n",
            b"DONE 0 0\n",
        ),
        // an older acknowledgement changes nothing
        (
            b"JOB 00000001\nJOB 00000002\nSEND 1\nSEND 1\nDELIVER 1 0\nDELIVER 1 1\nACK 1 1\nACK 1 0\nEND\n",
            b"TAKE 0 00000001\nTAKE 1 00000002\nDONE 2 2\n",
        ),
        // frames and acknowledgements come on a path that is down
        (
            b"JOB 12345678\nSEND 1\nDOWN 1\nDELIVER 1 0\nACK 1 0\nEND\n",
            b"TAKE 0 12345678\nDONE 1 1\n",
        ),
    ];
    for (file, text) in rows {
        let shown = played(rt.alloc(), file)?;
        assert_eq!(rt; shown.text.as_slice(), text);
    }
    Ok(())
}

#[test]
fn files_with_a_fault(rt: HostRuntime) {
    // the file, the kind of its fault, its line
    let rows: [(&[u8], u8, u32); 17] = [
        (b"JOB 00000001\nDOWN 1\nSEND 1\nDELIVER 1 0\nEND\n", 12, 4),
        (b"ACK 2 0\nEND\n", 12, 1),
        (
            b"JOB 00000001\nSEND 1\nDELIVER 1 99999999999999999999\nEND\n",
            12,
            3,
        ),
        // a line that may not stand goes first
        (b"ACK 1 0\nHALT\nEND\n", 11, 2),
        (b"", 11, 1),
        (b"JOB 0000000A\n\n", 11, 3),
        (b"SEND 1\nJOB 00000001\nEND\n", 11, 2),
        (b"END\nEND\n", 11, 2),
        (b"END\nSEND 1\n", 11, 2),
        (b"END 1\n", 11, 1),
        (b"JOB 0000001\nEND\n", 11, 1),
        (b"JOB 0000000G\nEND\n", 11, 1),
        (b"SEND 3\nEND\n", 11, 1),
        (b"SEND 1 1\nEND\n", 11, 1),
        (b"DELIVER 1\nEND\n", 11, 1),
        (b"DELIVER 1 1 1\nEND\n", 11, 1),
        (b"DELIVER 1 1x\nEND\n", 11, 1),
    ];
    for (file, kind, line) in rows {
        match played(rt.alloc(), file) {
            Ok(_) => assert!(rt; false),
            Err(fault) => assert_eq!(rt; fault, ConnError::Fault { kind, line }),
        }
    }
}

#[test]
fn a_file_has_twenty_thousand_lines(rt: HostRuntime) -> Result<(), Fail> {
    let mut file = vec![in rt.alloc(); b'\n'; 19_999]?;
    file.extend_from_slice(b"END\n")?;
    let shown = played(rt.alloc(), file.as_slice())?;
    assert_eq!(rt; shown.text.as_slice(), b"DONE 0 0\n".as_slice());
    file.extend_from_slice(b"\n")?;
    match played(rt.alloc(), file.as_slice()) {
        Ok(_) => assert!(rt; false),
        Err(fault) => assert_eq!(rt;
            fault,
            ConnError::Fault {
                kind: 11,
                line: 20_001
            }
        ),
    }
    Ok(())
}
