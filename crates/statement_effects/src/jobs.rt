//! What a job from outside does.
ghost use Rattle.std.specs.Prelude.{◌≡◌, IsTrue, IfSome, None};
ghost use Rattle.s7_events.specs.Fitting.{is_job};
ghost use Rattle.statement_effects.specs.JobEffect.{job_area, IsNoBlock, job_written, job_value, job_done, IsThere};

use crate::Memory;
use cpu_image::{ByteArea, ImageFault};
use s7_base::{Job, JobArea};

/// The area of a job. None where no data block has its number, which is above 255.
fn area_of(area: JobArea) -> Option<ByteArea>
    ensures some { IfSome result (λ found. found ≡ job_area area) }
    ensures none { result ≡ None → IsNoBlock area }
{
    match area {
        JobArea::M => Some(ByteArea::M),
        JobArea::Db(number) => {
            let number = u8::try_from(number).ok()?;
            Some(ByteArea::Db(number))
        }
    }
}

impl Memory {
    #[tactic(auto, using(crate::proofs::Places::not_missing, crate::proofs::Places::not_past, crate::proofs::JobBytes::job_width))]
    fn read_job(&self, area: ByteArea, job: &Job) -> u32
        requires job { IsTrue (is_job job.now) }
        requires area { area ≡ job_area job.now.area }
        requires there { IsThere self.now job.now }
        ensures { result ≡ job_value self.now job.now }
    {
        match self.image.read(area, job.at_byte, job.width) {
            Ok(value) => value,
            Err(ImageFault::NoSuchBlock | ImageFault::NoSuchAddress) => unreachable!(),
        }
    }

    #[tactic(auto, using(crate::proofs::Places::not_missing, crate::proofs::Places::not_past, crate::proofs::JobBytes::job_width, crate::proofs::JobBytes::job_fits))]
    fn write_job(&mut self, area: ByteArea, job: &Job)
        requires job { IsTrue (is_job job.now) }
        requires area { area ≡ job_area job.now.area }
        requires there { IsThere self.old job.now }
        ensures { self.new ≡ job_written self.old job.now }
    {
        match self.image.write(area, job.at_byte, job.width, job.value) {
            Ok(()) => {}
            Err(ImageFault::NoSuchBlock | ImageFault::NoSuchAddress) => unreachable!(),
        }
    }

    /// Does a job of 1, 2 or 4 bytes, the highest byte of its value first: a write job writes its value, and returns it; a read
    /// job returns the value that is there. None exactly where its data block is not loaded or its area ends before the last of
    /// the bytes does; nothing changes then.
    #[tactic(auto, using(crate::proofs::JobBytes::job_without_block, crate::proofs::JobBytes::job_there))]
    pub fn do_job(&mut self, job: &Job) -> Option<u32>
        requires { IsTrue (is_job job.now) }
        ensures done { (self.new, result) ≡ job_done self.old job.now }
        ensures levels { self.new.levels ≡ self.old.levels }
    {
        self.image.show_sizes();
        let area = area_of(job.area)?;
        let count = self.image.byte_count(area)?;
        if usize::from(job.at_byte) + usize::from(job.width) > count {
            return None;
        }
        if job.write {
            self.write_job(area, job);
            return Some(job.value);
        }
        Some(self.read_job(area, job))
    }
}
