//! The laws of the bytes of a batch: each function's `ensures` is one law, and its body is empty.
ghost use Rattle.fw_came.specs.LawsOfCame.{BatchesAreReadBack, ReadBatchesAreSpelled};

/// The bytes of a batch are read as that batch.
pub fn batches_are_read_back()
    ensures { BatchesAreReadBack }
{}

/// What is read of bytes is the batch that they spell.
pub fn read_batches_are_spelled()
    ensures { ReadBatchesAreSpelled }
{}
