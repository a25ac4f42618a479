// What the sum catches.
//
//     if !detect::ends_with_sum(frame) { /* damaged on the way */ }
#![tactic(auto)]

ghost use Rattle.std.specs.Prelude.{◌≡◌, ℕ, false, ◌&&◌, List, length, Decides, ◌==◌, nat_le};
ghost use Rattle.crc.specs.Sum.{message_bits, sum_of};
ghost use Rattle.detect.specs.Damage.{EndsWithSum, Burst};

// Whether the register over a message of at least two bytes is 0.
fn ends_at_zero(message: &[u8]) -> bool
    ensures { result ≡ (nat_le 2 (length message.now) && sum_of message.now == 0) }
{
    message.len() >= 2 && crc::sum(message) == 0
}

// Whether a message is covered bytes followed by their sum, high byte first. It refuses nothing and changes nothing.
// That is so exactly if the register over the whole message is 0. If a message that ends with its sum was sent, and at
// least one of 16 successive bits of it changed on the way and no other, the answer is no.
pub fn ends_with_sum(message: &[u8]) -> bool
    ensures exact { Decides result (EndsWithSum message.now) }
    ensures register_is_zero { result ≡ (nat_le 2 (length message.now) && sum_of message.now == 0) }
    ensures short_burst_is_caught { (sent : List ℕ) → EndsWithSum sent → Burst 16 (message_bits sent) (message_bits message.now) → result ≡ false }
{
    ends_at_zero(message)
}
