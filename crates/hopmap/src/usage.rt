// What the program can be asked to do.
pub const USAGE: &str = "\
usage:
  hopmap show LOG [--clock MS] [--order up|down] [--missing first|last]
      prints each batch and each row of a log, how the log closes, and whether its rows are in key order
  hopmap grades LOG
      prints how many rows of a log have each grade, and how many are not measured
  hopmap table [--kind inner|left|right|full] [--order up|down] [--missing first|last] [--missing-equal]
               [--grade G] [--window MS] SENT HEARD
      prints the joined table of two logs, each row held against each
  hopmap --help
      prints this

options:
  --clock MS              adds MS milliseconds, perhaps below 0, to every moment
  --order up|down         which way keys run; up if not given
  --missing first|last    where missing keys stand, whichever way the others run; last if not given
  --missing-equal         a missing key equals a missing key of the other log; if not given, it equals nothing
  --kind KIND             inner: pairs; left: also sent rows without a pair; right: also heard rows without a pair;
                          full: both; full if not given
  --grade G               only pairs heard at a level of grade G or better (held within 1 to 5)
  --window MS             only pairs heard from 0 to MS milliseconds after they were sent
";
