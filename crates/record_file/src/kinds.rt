//! What a file stands for is told by its bytes.

ghost use Rattle.record_file.specs.Kinds.{StandsForOneList, ForeignStandsForNone, DamagedStandsForNone, DamagedIsNotForeign, DamagedAtOneRecord};

/// A file stands for one list of lines, or it is foreign, or damaged at one record.
pub fn files_are_of_one_kind()
    ensures one_list { StandsForOneList }
    ensures foreign { ForeignStandsForNone }
    ensures damaged { DamagedStandsForNone }
    ensures not_both { DamagedIsNotForeign }
    ensures one_record { DamagedAtOneRecord }
{}
