// Releases the units that the sender's numbers no longer count.

ghost use Rattle.std.specs.Prelude.{◌≡◌};
ghost use Rattle.circular_buffer.specs.Buffer.{buffer, keep_last};
ghost use Rattle.cop1.specs.Queues.{still_waiting};
ghost use Rattle.cop1.specs.Numbers.{IsSender};

use crate::sender::Sender;
use circular_buffer::HeapCircularBuffer;

pub(super) fn trim<U: Drop>(
    sender: &Sender,
    waiting: &mut Option<U>,
    sent: &mut HeapCircularBuffer<U>,
)
    ensures holds { IsSender sender.now }
    ensures waiting { waiting.new ≡ still_waiting sender.now.waiting waiting.old }
    ensures sent { sent.new
        ≡ buffer (keep_last sender.now.sent.count sent.old.items) sent.old.capacity }
{
    let fields = sender.fields();
    if !fields.waiting {
        *waiting = None;
    }
    sent.truncate_front(usize::from(fields.sent));
}
