// The main theorem once more, of a room as a function of what happened in it: for programs that keep such a room.
ghost use Rattle.std.specs.Prelude.{◌≡◌, true};
ghost use Rattle.network.specs.Rooms.{RoomsRight};

// Whatever happened in a room of 32 machines: what each desk shows is what the plain paper is for the log in its memory; whoever has heard of the same
// shows the same; what happens next is right; and what cannot be is refused, and changes nothing.
pub fn every_room_is_right() -> bool
    ensures { (result ≡ true) × RoomsRight }
{
    true
}
