//! What holds of a stream after any sequence of calls.

ghost use Rattle.std.specs.Prelude.{◌≡◌, ◌≤◌, List, Some, length};
ghost use Rattle.bgp_types.specs.declared.fault.HeaderFault.{HeaderFault};
ghost use Rattle.bgp_types.specs.Header.{header_fault};
ghost use Rattle.bgp_frame.specs.Streams.{Stream, Call, all_called, empty_stream, IsStream, HasFaultAtFront};

/// After any calls of `feed` and `next`, the frames given and the bytes held, joined, are the bytes
/// that were fed, and the frames are those of the joined bytes.
pub fn any_pieces()
    ensures { (calls : List Call) → IsStream (all_called empty_stream calls) }
{}

/// A faulty header is the answer from then on, and no further frame is given.
pub fn fault_stays()
    ensures { (before : Stream) (calls : List Call) (fault : HeaderFault)
        → HasFaultAtFront fault before before → HasFaultAtFront fault before (all_called before calls) }
{}
