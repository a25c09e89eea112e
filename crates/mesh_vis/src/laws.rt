//! Laws of pictures, each proved as the contract of a function that does nothing.

ghost use Rattle.std.specs.Prelude.{◌≡◌};
ghost use Rattle.mesh_model.specs.Packets.Bodies.{key_size};
ghost use Rattle.mesh_model.specs.Packets.Pictures.{neighbour_size};
ghost use Rattle.mesh_model.specs.Services.Pictures.{most_clients, most_neighbours, picture_type, picture_version};
ghost use Rattle.mesh_vis.specs.Laws.{IsPictureReadAgain, IsReadPictureSpelled, OwnPicturesFit};

use crate::layout::{
    CLIENT_SIZE, MOST_CLIENTS, MOST_NEIGHBOURS, NEIGHBOUR_SIZE, PICTURE_TYPE, PICTURE_VERSION,
};

/// A picture that was written is read again.
pub fn a_written_picture_is_read_again()
    ensures { IsPictureReadAgain }
{}

/// Bytes that are read as a picture are those that it is spelled in.
pub fn a_read_picture_is_spelled_so()
    ensures { IsReadPictureSpelled }
{}

/// The picture that a node gives of itself can be written, and a part of the fact store has room for
/// it.
pub fn own_pictures_fit()
    ensures { OwnPicturesFit }
{}

/// The numbers are those of the definitions.
pub fn numbers_are_those_of_the_definitions()
    ensures neighbour_size { NEIGHBOUR_SIZE ≡ neighbour_size }
    ensures client_size { CLIENT_SIZE ≡ key_size }
    ensures most_neighbours { MOST_NEIGHBOURS ≡ most_neighbours }
    ensures most_clients { MOST_CLIENTS ≡ most_clients }
    ensures type_no { PICTURE_TYPE ≡ picture_type }
    ensures version { PICTURE_VERSION ≡ picture_version }
{}
