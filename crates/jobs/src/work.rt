//! The jobs.

use crate::commands::{check, draw, drive, refuse, run};
use crate::digest::Digest;
use crate::families::{fan_out, pairs, question_for_all, question_for_processes, successions};
use crate::inputs::{
    among_strangers, certificate_in, changed, later, put_questions, records_of, with_questions,
};
use crate::random::Random;
use crate::refused::{with_last, with_refused};
use crate::scripts::{Family, Plan, Ways, script};
use anyhow::{Result, bail};
use std::alloc::Global;
use std::num::NonZeroU32;

/// Which job is wanted.
#[derive(Clone, Copy)]
pub enum Job {
    Reports,
    Strangers,
    Lines,
    Settlements,
    Records,
    Scripts,
    Families,
}

impl Job {
    /// The job of this word.
    pub fn read(word: &str) -> Option<Job> {
        match word {
            "reports" => Some(Job::Reports),
            "strangers" => Some(Job::Strangers),
            "lines" => Some(Job::Lines),
            "settlements" => Some(Job::Settlements),
            "records" => Some(Job::Records),
            "scripts" => Some(Job::Scripts),
            "families" => Some(Job::Families),
            _ => None,
        }
    }
}

/// What a job goes on with.
#[derive(Drop)]
struct Bench {
    alloc: Global,
    random: Random,
    digest: Digest,
}

// A count that is not 0.
fn count(number: u32) -> Result<NonZeroU32> {
    match NonZeroU32::new(number) {
        Some(count) => Ok(count),
        None => bail!("a count of nothing"),
    }
}

// A plan without settlements.
fn plan(processes: u32, family: Family, ways: Ways, messages: u32) -> Result<Plan> {
    Ok(Plan {
        processes: count(processes)?,
        family,
        ways,
        messages,
        settles: None,
    })
}

// The certificate that the last of these replies tells.
fn told_in(replies: &[u8]) -> Result<&[u8]> {
    match certificate_in(replies) {
        Some(certificate) => Ok(certificate),
        None => bail!("no line was answered"),
    }
}

impl Bench {
    // The script of a plan.
    fn script_of(&mut self, plan: &Plan) -> Result<Vec<u8>> {
        Ok(script(self.alloc, plan, &mut self.random)?)
    }

    // The report lines of a plan.
    fn lines_of(&mut self, plan: &Plan) -> Result<Vec<u8>> {
        let script = self.script_of(plan)?;
        drive(self.alloc, &mut self.digest, &script)
    }

    fn run(&mut self, lines: &[u8]) -> Result<Vec<u8>> {
        run(self.alloc, &mut self.digest, lines)
    }

    // Draws how much longer the root works at its beginning in the variant of this number.
    fn draw_more(&mut self, number: u32) -> u32 {
        number
            .saturating_mul(1_000)
            .saturating_add(self.random.up_to(999))
    }

    // Report lines where the root of these worked longer at its beginning, by the number of a variant.
    fn variant(&mut self, lines: &[u8], number: u32) -> Result<Vec<u8>> {
        let more = self.draw_more(number);
        Ok(later(self.alloc, lines, more)?)
    }

    // Lines are taken, those of three computations.
    fn take_variants(&mut self, lines: &[u8]) -> Result<()> {
        for number in 0..3 {
            let other = self.variant(lines, number)?;
            let _replies = self.run(&other)?;
        }
        Ok(())
    }

    fn take(&mut self, processes: u32, ways: Ways, messages: u32) -> Result<()> {
        let lines = self.lines_of(&plan(processes, Family::Halves, ways, messages)?)?;
        self.take_variants(&lines)
    }

    fn take_reports(&mut self) -> Result<()> {
        self.take(1, Ways::Far, 8_000)?;
        self.take(2, Ways::Far, 8_000)?;
        self.take(32, Ways::Far, 8_000)?;
        self.take(64, Ways::Ring, 4_000)?;
        self.take(1_000, Ways::Groups, 3_000)
    }

    // Reports are taken among lines that are refused.
    fn take_among_strangers(
        &mut self,
        processes: u32,
        family: Family,
        ways: Ways,
        messages: u32,
    ) -> Result<()> {
        let lines = self.lines_of(&plan(processes, family, ways, messages)?)?;
        for number in 0..3 {
            let other = self.variant(&lines, number)?;
            let mixed = among_strangers(self.alloc, &mut self.random, &other)?;
            let _replies = self.run(&mixed)?;
        }
        Ok(())
    }

    fn take_strangers(&mut self) -> Result<()> {
        self.take_among_strangers(1, Family::Halves, Ways::Far, 4_000)?;
        self.take_among_strangers(40, Family::Comb, Ways::Far, 3_000)?;
        self.take_among_strangers(400, Family::Halves, Ways::Groups, 6_000)
    }

    // Reports, and then so many questions.
    fn ask_behind(
        &mut self,
        processes: u32,
        ways: Ways,
        messages: u32,
        questions: NonZeroU32,
    ) -> Result<()> {
        let plan = plan(processes, Family::Halves, ways, messages)?;
        let mut lines = self.lines_of(&plan)?;
        put_questions(
            self.alloc,
            &mut lines,
            &mut self.random,
            plan.processes,
            questions,
        )?;
        lines.extend_from_slice(b"GARBAGE\n")?;
        let _replies = self.run(&lines)?;
        Ok(())
    }

    // Reports, and questions among them.
    fn ask_among(
        &mut self,
        processes: u32,
        ways: Ways,
        messages: u32,
        every: NonZeroU32,
    ) -> Result<()> {
        let plan = plan(processes, Family::Halves, ways, messages)?;
        let lines = self.lines_of(&plan)?;
        let mixed = with_questions(self.alloc, &mut self.random, &lines, every, plan.processes)?;
        let _replies = self.run(&mixed)?;
        Ok(())
    }

    fn ask_for_lines(&mut self) -> Result<()> {
        self.ask_behind(2, Ways::Ring, 8_000, count(2)?)?;
        self.ask_behind(64, Ways::Ring, 4_000, count(6)?)?;
        self.ask_behind(1_000, Ways::Groups, 2_000, count(4)?)?;
        self.ask_among(32, Ways::Far, 2_000, count(8)?)
    }

    // Reports and settlements, those of three computations.
    fn settle(&mut self, processes: u32, ways: Ways, messages: u32, every: u32) -> Result<()> {
        let mut plan = plan(processes, Family::Halves, ways, messages)?;
        plan.settles = NonZeroU32::new(every);
        let lines = self.lines_of(&plan)?;
        self.take_variants(&lines)
    }

    fn settle_lines(&mut self) -> Result<()> {
        self.settle(16, Ways::Far, 3_000, 100)?;
        self.settle(200, Ways::Groups, 3_000, 150)?;
        self.settle(1_000, Ways::Groups, 500, 100)
    }

    // A certificate is checked over the records of these lines, and a wrong one.
    fn check_both(&mut self, lines: &[u8], certificate: &[u8]) -> Result<()> {
        let records = records_of(self.alloc, lines)?;
        check(self.alloc, &mut self.digest, &records, certificate)?;
        let wrong = changed(self.alloc, certificate)?;
        check(self.alloc, &mut self.digest, &records, &wrong)
    }

    // The same over the lines of another computation, whose root worked so much longer.
    fn check_later(&mut self, lines: &[u8], more: u32, certificate: &[u8]) -> Result<()> {
        let other = later(self.alloc, lines, more)?;
        self.check_both(&other, certificate)
    }

    // The replies to these lines and to so many questions behind them.
    fn replies_behind(
        &mut self,
        lines: &[u8],
        processes: NonZeroU32,
        questions: NonZeroU32,
    ) -> Result<Vec<u8>> {
        let mut asked = Vec::from_slice(self.alloc, lines)?;
        put_questions(
            self.alloc,
            &mut asked,
            &mut self.random,
            processes,
            questions,
        )?;
        self.run(&asked)
    }

    // The reports of one computation tell of a line, and its certificate is checked over those of two others.
    fn check_records(&mut self, processes: u32, ways: Ways, messages: u32) -> Result<()> {
        let plan = plan(processes, Family::Halves, ways, messages)?;
        let lines = self.lines_of(&plan)?;
        // Both are drawn in front of the questions, as digests go by that order.
        let (first, second) = (self.draw_more(1), self.draw_more(2));
        let replies = self.replies_behind(&lines, plan.processes, count(1)?)?;
        let certificate = told_in(&replies)?;
        self.check_later(&lines, first, certificate)?;
        self.check_later(&lines, second, certificate)
    }

    fn check_certificates(&mut self) -> Result<()> {
        self.check_records(2, Ways::Ring, 6_000)?;
        self.check_records(32, Ways::Far, 6_000)?;
        self.check_records(64, Ways::Ring, 4_000)
    }

    fn draw(&mut self, processes: u32, ways: Ways, messages: u32, every: u32) -> Result<()> {
        let mut plan = plan(processes, Family::Halves, ways, messages)?;
        plan.settles = NonZeroU32::new(every);
        let script = self.script_of(&plan)?;
        draw(self.alloc, &mut self.digest, &script)
    }

    fn do_scripts(&mut self) -> Result<()> {
        let _lines = self.lines_of(&plan(2, Family::Halves, Ways::Far, 8_000)?)?;
        let _lines = self.lines_of(&plan(400, Family::Halves, Ways::Ring, 3_000)?)?;
        let _lines = self.lines_of(&plan(64, Family::Halves, Ways::Far, 6_000)?)?;
        self.draw(32, Ways::Far, 2_500, 0)?;
        self.draw(8, Ways::Far, 2_500, 500)
    }

    // Lines of children that retire into their parent, with a question where all failed; the same with numbers of ten digits.
    fn take_successions(&mut self, children: NonZeroU32, generations: u32) -> Result<()> {
        let script = successions(self.alloc, &mut self.random, children, generations)?;
        let lines = drive(self.alloc, &mut self.digest, &script)?;
        let mut large = self.variant(&lines, 3_000_000)?;
        question_for_all(
            self.alloc,
            &mut large,
            children.get(),
            generations.saturating_add(1),
        )?;
        large.extend_from_slice(b"GARBAGE\n")?;
        let _replies = self.run(&large)?;
        let refused = with_refused(self.alloc, &lines)?;
        let _replies = self.run(&refused)?;
        Ok(())
    }

    // Pairs that fall at once, where each chain is asked for.
    fn take_pairs(&mut self, idle: u32, count: u32, turns: u32) -> Result<()> {
        let script = pairs(self.alloc, &mut self.random, idle, count, turns)?;
        let mut lines = drive(self.alloc, &mut self.digest, &script)?;
        lines.extend_from_slice(b"GARBAGE\nLINE p0\nLINE p1\n")?;
        question_for_processes(self.alloc, &mut lines, count.saturating_mul(2))?;
        let _replies = self.run(&lines)?;
        Ok(())
    }

    // A message to all, the line where all failed, and its certificate with faults.
    fn take_fan_out(&mut self, processes: u32, rounds: u32) -> Result<()> {
        let script = fan_out(self.alloc, &mut self.random, processes, rounds)?;
        let mut lines = drive(self.alloc, &mut self.digest, &script)?;
        let records = records_of(self.alloc, &lines)?;
        question_for_processes(self.alloc, &mut lines, processes)?;
        lines.extend_from_slice(b"LINE p0\n")?;
        let replies = self.run(&lines)?;
        let certificate = told_in(&replies)?;
        check(self.alloc, &mut self.digest, &records, certificate)?;
        self.refuse_all(&records, certificate)
    }

    // A certificate is refused where `to` stands in place of its last `from`.
    fn refuse_with(&mut self, records: &[u8], certificate: &[u8], from: u8, to: u8) -> Result<()> {
        let other = with_last(self.alloc, certificate, from, to)?;
        refuse(self.alloc, &mut self.digest, records, &other)
    }

    // A certificate is refused with an unknown name at its end, with a byte that no text has, and cut short.
    fn refuse_all(&mut self, records: &[u8], certificate: &[u8]) -> Result<()> {
        self.refuse_with(records, certificate, b'p', b'z')?;
        self.refuse_with(records, certificate, b'p', 255)?;
        self.refuse_with(records, certificate, b'}', b' ')
    }

    fn do_families(&mut self) -> Result<()> {
        self.take_successions(count(20)?, 18)?;
        self.take_pairs(0, 64, 60)?;
        self.take_pairs(20, 32, 60)?;
        self.take_fan_out(200, 8)
    }

    fn do_job(&mut self, job: Job) -> Result<()> {
        match job {
            Job::Reports => self.take_reports(),
            Job::Strangers => self.take_strangers(),
            Job::Lines => self.ask_for_lines(),
            Job::Settlements => self.settle_lines(),
            Job::Records => self.check_certificates(),
            Job::Scripts => self.do_scripts(),
            Job::Families => self.do_families(),
        }
    }
}

// A job once, with the digest before it.
fn do_round(alloc: Global, job: Job, round: u32, seed: u32, before: u64) -> Result<u64> {
    let mut bench = Bench {
        alloc,
        random: Random::new(seed, round),
        digest: Digest::new(),
    };
    bench.digest.take(before.to_le_bytes().as_slice());
    bench.do_job(job)?;
    Ok(bench.digest.value())
}

/// Does a job so many times, over other inputs each time; a digest of all that it gave.
pub fn do_rounds(alloc: Global, job: Job, rounds: u32, seed: u32) -> Result<u64> {
    let mut digest = 0u64;
    for round in 0..rounds {
        digest = do_round(alloc, job, round, seed, digest)?;
    }
    Ok(digest)
}
