// Step 4 of the order of checks (RULES 5.4) over the channel: the command's data is opened, and its MAC is the next IV.
// Every length is in bytes.
// Proved: the route means what the rulebook decides from the opening on, for every card and every field, and a field that does not open closes the channel.
#![tactic(auto)]

ghost use Rattle.std.specs.Prelude.{◌≡◌, false, ◌≤◌, length};
ghost use Rattle.command_table.specs.Fits.{PathsFit};
ghost use Rattle.rules.specs.Rows.{is_plain};
ghost use Rattle.order_ends.specs.Routes.{RoutesIn, from_opening};

use card::Card;
use order_ends::Way;
use rules::Instruction;

// Step 4, over the channel: the data is opened, and the MAC is the next IV; otherwise 6982, and the channel is closed.
pub fn step_4_opens(i: Instruction, card: Card, cmd: &[u8], field: &[u8], plain: &mut [u8]) -> Way
    requires { (4 ≤ length cmd.now) × (length plain.old ≡ 255) × (is_plain i ≡ false) × PathsFit card.keys }
    ensures { RoutesIn (from_opening i cmd.now card field.now) result plain.new }
{
    let session = channel_card::session_of(card.channel);
    let cla = cmd[0];
    let ins = cmd[1];
    let p1 = cmd[2];
    let p2 = cmd[3];
    let header = [cla, ins, p1, p2];
    let Some(n) = channel_open::open_command(
        session,
        header,
        field,
        &mut plain[0..channel_open::CIPHERTEXT_MAX_BYTES],
    ) else {
        let closed = card.close();
        return Err(order_ends::ends(false, closed, rules::SECURITY_NOT_MET));
    };
    let mac = octets::block(&field[0..channel_rules::MAC_BYTES]);
    order_ends::step_5(
        i,
        true,
        channel_card::with_mac(card, mac),
        cmd,
        &plain[0..n],
    )
}
