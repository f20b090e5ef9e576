//! What holds of the texts of all stations.

ghost use Rattle.ink_station.specs.Once.{EveryStationIsOne};
ghost use Rattle.ink_station.specs.Parts.{LinesStay};

/// Of every text and every part of it, the lines of the part's job have the numbers that they have in the whole text, and no other line of
/// the job's text has a word. So a fault of the job is told at its line of the whole text.
pub fn lines_stay()
    ensures lines { LinesStay }
{}

/// No text has both the jobs of a station and a fault.
pub fn stations_tell()
    ensures one { EveryStationIsOne }
{}
