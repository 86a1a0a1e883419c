//! Worked examples: what the definitions give for short scripts, computed by proof. The functions do nothing; each
//! contract is the example. The scripts and what is expected of them stand in `specs/examples/`.
ghost use Rattle.conn_scan.specs.examples.StallInBlocks.{StallItemsFound, StallByOne, StallByTwo, StallAtOnce};
ghost use Rattle.conn_scan.specs.examples.StallInBlocks.{ClearFrames};
ghost use Rattle.conn_scan.specs.examples.ScanSums.{StatesFound, FirstSumFound, LastSumFound, FirstCountFound};
ghost use Rattle.conn_scan.specs.examples.ScanSums.{LastCountFound, CarriesFound};

/// A window of 65,535 bytes is used up, 1 byte is granted, 1 byte is sent: the credit after each change, the summaries
/// of the first two changes and of the last one, and the credit before each of these blocks.
pub fn scan_sums()
    ensures states { StatesFound }
    ensures first { FirstSumFound }
    ensures last { LastSumFound }
    ensures first_count { FirstCountFound }
    ensures last_count { LastCountFound }
    ensures carries { CarriesFound }
{}

/// All of 65,535 bytes of connection credit are sent, 1 byte is granted, 1 byte is sent: the same in blocks of 1, of 2
/// and at once. The frames that take up the last credit are not clear, though credit is there before or after them.
pub fn stall_ends_then_overrun()
    ensures items { StallItemsFound }
    ensures by_one { StallByOne }
    ensures by_two { StallByTwo }
    ensures at_once { StallAtOnce }
    ensures clear { ClearFrames }
{}
