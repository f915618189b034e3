// A sounding: where it was taken, and three attributes, each a whole number of steps of the grid.
#[derive(Clone, Copy)]
pub(crate) struct Sounding {
    pub(crate) station: &'static str,
    // Easting, northing and depth.
    pub(crate) cell: [u32; 3],
}

// Three attributes of four bits each.
pub(crate) const AXES: u32 = 3;

pub(crate) const ORDER: u32 = 4;

pub(crate) const SOUNDINGS: [Sounding; 12] = [
    Sounding {
        station: "Alder Bank",
        cell: [3, 5, 2],
    },
    Sounding {
        station: "Brant Rock",
        cell: [14, 1, 9],
    },
    Sounding {
        station: "Cairn Hole",
        cell: [7, 12, 15],
    },
    Sounding {
        station: "Dunlin Flat",
        cell: [4, 6, 0],
    },
    Sounding {
        station: "Eider Point",
        cell: [9, 9, 4],
    },
    Sounding {
        station: "Fulmar Edge",
        cell: [15, 15, 15],
    },
    Sounding {
        station: "Gannet Bay",
        cell: [2, 10, 3],
    },
    Sounding {
        station: "Heron Ledge",
        cell: [8, 4, 6],
    },
    Sounding {
        station: "Ibis Shoal",
        cell: [0, 0, 0],
    },
    Sounding {
        station: "Jackdaw Reef",
        cell: [6, 8, 7],
    },
    Sounding {
        station: "Knot Sand",
        cell: [5, 5, 1],
    },
    Sounding {
        station: "Linnet Deep",
        cell: [11, 7, 12],
    },
];
