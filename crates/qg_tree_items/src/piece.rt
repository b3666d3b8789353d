// The pieces of files that items tell.
ghost use Rattle.std.specs.Prelude.{◌≡◌};
ghost use Rattle.std.specs.Option.{option_and_then};
ghost use Rattle.qg_image.specs.ItemMeaning.{file_part, piece_told};
ghost use Rattle.qg_image.specs.ItemReading.{extent_data_read};
ghost use Rattle.qg_image.specs.Reach.{piece_of_part};

use qg_image::items::kind::EXTENT_DATA;
use qg_image::items::read_extent_data;
use qg_image::node::Item;
use qg_num::Piece;

/// The piece that an EXTENT_DATA tells, if its body is one (on-disk format, EXTENT_DATA). Its extent's length stands in
/// it twice.
pub fn piece_of(item: &Item) -> Option<Piece>
    ensures { result ≡ option_and_then (piece_told item.now.key.offset) (extent_data_read item.now.body) }
{
    let told = read_extent_data(item.body.as_slice())?;
    if told.ram_bytes != told.disk_num_bytes {
        return None;
    }
    Some(Piece {
        position: item.key.offset,
        len: told.num_bytes,
        extent: told.disk_bytenr,
        offset: told.offset,
        stamp: told.generation,
        extent_bytes: told.disk_num_bytes,
    })
}

/// The piece that an item of a leaf tells, if it tells one.
pub fn piece_in(item: &Item) -> Option<Piece>
    ensures { result ≡ option_and_then piece_of_part (file_part item.now) }
{
    if item.key.kind == EXTENT_DATA {
        piece_of(item)
    } else {
        None
    }
}
