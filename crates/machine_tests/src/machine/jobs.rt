use super::{Step, assert_bit_memory, machine_of_blocks, play};
use s7_base::{Answer, Area, Ask, Job, JobArea};
use std::test::Fail;

/// A job that reads.
fn read(area: JobArea, at_byte: u16, width: u8) -> Job {
    Job {
        write: false,
        area,
        at_byte,
        width,
        value: 0,
    }
}

/// A job that writes.
fn write(area: JobArea, at_byte: u16, width: u8, value: u32) -> Job {
    Job {
        write: true,
        area,
        at_byte,
        width,
        value,
    }
}

/// The steps of a job.
fn steps_of(job: Job, value: Option<u32>) -> [Step; 2] {
    [
        (1, Ask::Cycle, Answer::Job(job)),
        (1, Ask::Reply(value), Answer::Done),
    ]
}

const M: JobArea = JobArea::M;

const DB5: JobArea = JobArea::Db(5);

#[test]
fn jobs_read_and_write(rt: HostRuntime) -> Result<(), Fail> {
    let mut machine = machine_of_blocks(rt.alloc(), &[(1, "NOP 0")])?;
    let opening = [
        (1, Ask::Outputs([0; 64]), Answer::Done),
        (1, Ask::Inputs, Answer::Image([0; 64])),
    ];
    play(&rt, &mut machine, 0, &opening);
    let jobs = [
        (write(M, 1023, 1, 0x7F), Some(0x7F)),
        (write(M, 1023, 2, 0x1234), None),
        (read(M, 1020, 4), Some(0x7F)),
        (read(M, 1021, 4), None),
        (write(M, 0, 4, 0x0102_0304), Some(0x0102_0304)),
        (read(M, 1, 2), Some(0x0203)),
        (write(DB5, 6, 2, 0x1234), Some(0x1234)),
        (read(DB5, 7, 1), Some(0x34)),
        (read(DB5, 4, 4), Some(0x5555_1234)),
        (read(DB5, 7, 2), None),
        (read(DB5, 8, 1), None),
        (read(JobArea::Db(9), 0, 1), None),
        // 261 is 256 more than 5
        (write(JobArea::Db(261), 0, 1, 1), None),
        (read(DB5, 0, 1), Some(0x55)),
    ];
    for (job, value) in jobs {
        play(&rt, &mut machine, 2, &steps_of(job, value));
    }
    play(&rt, &mut machine, 30, &[(1, Ask::Cycle, Answer::Go)]);
    assert_bit_memory(
        &rt,
        &machine,
        &[(0, 1), (1, 2), (2, 3), (3, 4), (1022, 0), (1023, 0x7F)],
    );
    assert_eq!(rt; machine.image_byte(Area::Db(5), 7), Some(0x34));
    assert_eq!(rt; machine.image_byte(Area::Db(6), 7), Some(0x66));
    Ok(())
}

#[test]
fn a_reply_keeps_the_value_of_its_job(rt: HostRuntime) -> Result<(), Fail> {
    let blocks = [(1, "NOP 0"), (40, "L 9;T MB5")];
    let mut machine = machine_of_blocks(rt.alloc(), &blocks)?;
    let alarm = Answer::Alarm { ob: 40, info: 0 };
    let steps = [
        (1, Ask::Outputs([0; 64]), Answer::Done),
        (1, Ask::Inputs, Answer::Image([0; 64])),
        (1, Ask::Cycle, Answer::Job(write(M, 5, 1, 7))),
        (1, Ask::Reply(Some(7)), alarm),
        (1, Ask::Reply(Some(7)), Answer::Done),
        (1, Ask::Cycle, Answer::Job(read(M, 5, 1))),
        (1, Ask::Reply(Some(9)), Answer::Done),
        (1, Ask::Cycle, Answer::Go),
    ];
    play(&rt, &mut machine, 0, &steps);
    Ok(())
}
