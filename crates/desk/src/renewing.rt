//! The records of turns, put behind those that a store found.

ghost use Rattle.std.specs.Prelude.{◌≡◌, List, [], ◌++◌, OnOk, IfOk, IfErr, vec_capacity};
ghost use Rattle.record_file.specs.File.{Said};
ghost use Rattle.record_file.specs.Store.{disk_of, found_records, is_stopped, HasRecords};
ghost use Rattle.desk.specs.Records.{report_recorded, settlement_recorded, recorded_by, recorded};

use crate::turn::Turn;
use line_disk::Disk;
use record_file::Store;
use report_line::{Call, MarkedReport, Names, Reply, write_line, write_settle};
use std::alloc::{AllocError, Global};

/// Puts the record of a report there, if it was accepted.
fn add_report<D: Disk>(
    alloc: Global,
    store: &mut Store<D>,
    report: &MarkedReport,
    reply: &Reply,
) -> Result<(), AllocError>
    ensures found { OnOk result (found_records store.new ≡ found_records store.old ++ report_recorded report.now reply.now) }
    ensures disk { disk_of store.new ≡ disk_of store.old }
    ensures stopped { is_stopped store.new ≡ is_stopped store.old }
    ensures rests { (said : List Said) → HasRecords D.view store.old said → HasRecords D.view store.new said }
{
    match reply {
        Reply::Accepted(_) => {
            let line = write_line(alloc, &report.report)?;
            store.add_found(report.epoch, line)
        }
        _ => Ok(()),
    }
}

/// Puts the record of a settlement there, if it was accepted: the reply says the epoch behind it.
fn add_settlement<D: Disk>(
    alloc: Global,
    store: &mut Store<D>,
    front: u32,
    names: &Names,
    reply: &Reply,
) -> Result<(), AllocError>
    ensures found { OnOk result (found_records store.new ≡ found_records store.old ++ settlement_recorded front names.now reply.now) }
    ensures disk { disk_of store.new ≡ disk_of store.old }
    ensures stopped { is_stopped store.new ≡ is_stopped store.old }
    ensures rests { (said : List Said) → HasRecords D.view store.old said → HasRecords D.view store.new said }
{
    match reply {
        Reply::Settled { epoch, front: _ } => {
            let line = write_settle(alloc, front, names)?;
            store.add_found(epoch.saturating_sub(1), line)
        }
        _ => Ok(()),
    }
}

/// Puts the record of a turn there, if it has one.
fn add_turn<D: Disk>(alloc: Global, store: &mut Store<D>, turn: &Turn) -> Result<(), AllocError>
    ensures found { OnOk result (found_records store.new ≡ found_records store.old ++ recorded_by turn.now.call turn.now.receipt.reply) }
    ensures disk { disk_of store.new ≡ disk_of store.old }
    ensures stopped { is_stopped store.new ≡ is_stopped store.old }
    ensures rests { (said : List Said) → HasRecords D.view store.old said → HasRecords D.view store.new said }
{
    match &turn.call {
        Call::Report(report) => add_report(alloc, store, report, &turn.receipt.reply),
        Call::Settle { front, names } => {
            add_settlement(alloc, store, *front, names, &turn.receipt.reply)
        }
        _ => Ok(()),
    }
}

/// Puts the records of these turns there, in order.
fn add_turns<D: Disk>(alloc: Global, store: &mut Store<D>, turns: &[Turn]) -> Result<(), AllocError>
    ensures found { OnOk result (found_records store.new ≡ found_records store.old ++ recorded turns.now) }
    ensures disk { disk_of store.new ≡ disk_of store.old }
    ensures stopped { is_stopped store.new ≡ is_stopped store.old }
    ensures rests { (said : List Said) → HasRecords D.view store.old said → HasRecords D.view store.new said }
{
    for turn in turns {
        add_turn(alloc, store, turn)?;
    }
    Ok(())
}

/// The store with the records of these turns among those found, and their list, which is empty then. The list keeps its room. If
/// memory is missing the disk is handed back.
pub(crate) fn take_in<D: Disk>(
    alloc: Global,
    store: Store<D>,
    turns: Vec<Turn>,
) -> Result<(Store<D>, Vec<Turn>), D>
    ensures found { IfOk result (λ both. found_records both.0 ≡ found_records store ++ recorded turns.items) }
    ensures disk { IfOk result (λ both. disk_of both.0 ≡ disk_of store) }
    ensures stopped { IfOk result (λ both. is_stopped both.0 ≡ is_stopped store) }
    ensures rests { IfOk result (λ both. (said : List Said) → HasRecords D.view store said → HasRecords D.view both.0 said) }
    ensures none { IfOk result (λ both. both.1.items ≡ []) }
    ensures room { IfOk result (λ both. vec_capacity both.1 ≡ vec_capacity turns) }
    ensures refused { IfErr result (λ disk. disk ≡ disk_of store) }
{
    let mut store = store;
    let mut turns = turns;
    match add_turns(alloc, &mut store, &turns) {
        Ok(()) => {
            turns.clear();
            Ok((store, turns))
        }
        Err(_) => Err(store.close()),
    }
}
