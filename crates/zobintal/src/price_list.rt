// The price list that is laid before a dealer.
pub const PRICE_LIST: &str = "\
SPARE PARTS FOR SNOW GROOMERS: PRICES OFFERED, PER PIECE

part     what it is                           pieces      EUR
-------------------------------------------------------------
TS-1140  tiller shaft, left, 1140 mm              12   412.00
TS-1141  tiller shaft, right, 1140 mm             12   412.00
TS-1310  tiller shaft, centre, 1310 mm             6   498.50
BC-0620  blade cylinder, lift, 620 mm              8   355.20
BC-0455  blade cylinder, tilt, 455 mm              8   287.90
BC-0456  blade cylinder, angle, 455 mm             8   287.90
PU-2800  travel pump, 28 ccm                       4  1940.00
PU-4500  travel pump, 45 ccm                       4  2310.00
PU-1600  tiller pump, 16 ccm                       6   980.00
PU-0800  steering pump, 8 ccm                      6   415.00
SE-0620  seal set for BC-0620                     40    18.75
SE-0455  seal set for BC-0455 and BC-0456         80    16.10
BE-1140  bearing for TS-1140 and TS-1141          48    27.40
BE-1310  bearing for TS-1310                      24    31.80
FI-2800  return filter for PU-2800                60    22.35
FI-4500  return filter for PU-4500                60    24.60

Prices hold for orders of one season, delivered to the depot.
";
